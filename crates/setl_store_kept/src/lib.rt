//! Laws of what a run keeps of its variables over bases that go on growing: each kept one is read over the bases cut to what
//! they had then, so that it stays what it is while the bases grow, and is what it was once they are cut.
//!
//! The theorems (`specs/Keeping`) speak of any forms, of which they ask one thing: that what stands over bases stands for the
//! same over all in which their instances and blocks are kept.
#![tactic(auto)]
