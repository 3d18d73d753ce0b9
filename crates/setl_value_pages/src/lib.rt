//! Lists in shared pages, of any items that can be copied, and lists that may have several owners: reading them, and
//! changing a part.
//!
//! A list of pages is a list of items that is cut in pages of 1 to 64, each of them shared: so a copy of it shares all
//! pages, and a change copies the page that it changes, and that only where it has other owners. Contracts see a page as
//! the list of its items (`items`), and the whole list as the pages one after the other (`joined`). A place is a page and
//! a place in it, both counted from 0, at an item or after the last one of its page (`IsIn`), and `rank_in` says how many
//! items stand before it. A change says which items stand in the place of which (`Exchanges`), and the pages beside them
//! stay as they are.
//!
//! Beside it stand changes of one list that may have several owners. Each call that copies items requires that a
//! clone is the same item (`exact`). The one error is want of memory, and then the list is as before.
#![tactic(auto)]

mod page_list;
mod shared;

pub use page_list::{
    Page, cut_page, first_at, item_at, items_at, items_from, paged, pages_from, put_page,
    replace_pages, size_at,
};
pub use shared::{append_in, drop_front, take_first};
