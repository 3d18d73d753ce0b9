//! Worked rows of each operator, on operands and answers that are written as denotations.
//!
//! `op` makes the call of the operator in the crates below it, so a row stands for the call on integers and strings, on
//! sets, tuples and maps, too.

ghost use Rattle.std.specs.Bool.{OnTrue};
ghost use Rattle.setl_operators_table.specs.Operators.{TakesOperands};

use crate::written::Work;
use setl_operators::Operator::{
    Above, Abs, Add, Arb, AtLeast, AtMost, Below, Divide, Domain, Equal, Even, FoldAdd, FoldAnd,
    FoldMax, FoldMin, FoldMultiply, FoldOr, Get, Images, In, Includes, IsAtom, IsBoolean,
    IsInteger, IsMap, IsSet, IsString, IsTuple, Less, Lessf, Max, Min, Modulo, Multiply, Negate,
    Not, NotEqual, NotIn, Npow, Odd, Pow, Power, Put, PutImages, Range, SetOf, SetRange, SetStep,
    Size, Slice, Str, Subset, Subtract, Tail, TupleOf, TupleRange, TupleStep, With,
};
use setl_operators::{Answer, OpFault, Operator, op, op_one, op_two};
use setl_value::Value;
use std::alloc::Global;
use std::fmt::Write;

// The operators of the tables.
const OPERATORS: &[Operator] = &[
    Above,
    Abs,
    Add,
    Arb,
    AtLeast,
    AtMost,
    Below,
    Divide,
    Domain,
    Equal,
    Even,
    FoldAdd,
    FoldAnd,
    FoldMax,
    FoldMin,
    FoldMultiply,
    FoldOr,
    Get,
    Images,
    In,
    Includes,
    IsAtom,
    IsBoolean,
    IsInteger,
    IsMap,
    IsSet,
    IsString,
    IsTuple,
    Less,
    Lessf,
    Max,
    Min,
    Modulo,
    Multiply,
    Negate,
    Not,
    NotEqual,
    NotIn,
    Npow,
    Odd,
    Pow,
    Power,
    Put,
    PutImages,
    Range,
    SetOf,
    SetRange,
    SetStep,
    Size,
    Slice,
    Str,
    Subset,
    Subtract,
    Tail,
    TupleOf,
    TupleRange,
    TupleStep,
    With,
];

// Rows, a line each: an operator, its operands, the turns left, and what is given. The prover reads a table as one word,
// so a row costs nothing.
pub const NUMBERS: &str = "Add | 1 1 | 0 | 2
Negate | 5 | 0 | -5
Negate | -170141183460469231731687303715884105728 | 0 | Wide
Negate | -5 | 0 | 5
Negate | 0 | 0 | 0
Negate | 170141183460469231731687303715884105727 | 0 | -170141183460469231731687303715884105727
Negate | 7 | 0 | -7
Negate | -7 | 0 | 7
Abs | -5 | 0 | 5
Abs | 5 | 0 | 5
Abs | 0 | 0 | 0
Abs | 170141183460469231731687303715884105727 | 0 | 170141183460469231731687303715884105727
Abs | -170141183460469231731687303715884105728 | 0 | Wide
Abs | 7 | 0 | 7
Abs | -7 | 0 | 7
Abs | '7' | 0 | Kind
Even | -4 | 0 | true
Even | 3 | 0 | false
Odd | -4 | 0 | false
Odd | -3 | 0 | true
Add | 2 3 | 0 | 5
Add | {1 2} {2 3} | 0 | {1 2 3}
Add | 'ab' 'c' | 0 | 'abc'
Add | 1 {1} | 0 | Kind
Add | true * | 0 | Om
Add | 7 2 | 0 | 9
Add | -170141183460469231731687303715884105728 -1 | 0 | Wide
Add | -170141183460469231731687303715884105728 1 | 0 | -170141183460469231731687303715884105727
Add | 170141183460469231731687303715884105727 -1 | 0 | 170141183460469231731687303715884105726
Add | 85070591730234615865843651857942052864 2 | 0 | 85070591730234615865843651857942052866
Add | 85070591730234615865843651857942052864 -2 | 0 | 85070591730234615865843651857942052862
Add | 170141183460469231731687303715884105727 1 | 0 | Wide
Add | [1] [2] | 0 | [1 2]
Add | 1 {} | 0 | Kind
Add | 'a' 'b' | 0 | 'ab'
Subtract | {1 2} {2 3} | 0 | {1}
Subtract | 2 5 | 0 | -3
Subtract | 7 2 | 0 | 5
Subtract | -170141183460469231731687303715884105728 -1 | 0 | -170141183460469231731687303715884105727
Subtract | -170141183460469231731687303715884105728 1 | 0 | Wide
Subtract | 170141183460469231731687303715884105727 -1 | 0 | Wide
Subtract | 85070591730234615865843651857942052864 2 | 0 | 85070591730234615865843651857942052862
Subtract | 85070591730234615865843651857942052864 -2 | 0 | 85070591730234615865843651857942052866
Subtract | 2 3 | 0 | -1
Subtract | [] [] | 0 | Kind
Multiply | {1 2} {2 3} | 0 | {2}
Multiply | 2 [1 *  3] | 2 | [1 * 3 1 * 3] charges 2
Multiply | 'ab' 3 | 2 | Spent
Multiply | -1 'ab' | 2 | Range
Multiply | 7 2 | 0 | 14
Multiply | -170141183460469231731687303715884105728 -1 | 0 | Wide
Multiply | -170141183460469231731687303715884105728 1 | 0 | -170141183460469231731687303715884105728
Multiply | 170141183460469231731687303715884105727 -1 | 0 | -170141183460469231731687303715884105727
Multiply | 85070591730234615865843651857942052864 2 | 0 | Wide
Multiply | 85070591730234615865843651857942052864 -2 | 0 | -170141183460469231731687303715884105728
Multiply | 2 3 | 0 | 6
Multiply | 2 [1 2] | 3 | [1 2 1 2] charges 2
Multiply | 'ab' 3 | 3 | 'ababab' charges 3
Multiply | 'ab' 2 | 3 | 'abab' charges 2
Multiply | 'ab' 0 | 3 | ''
Multiply | 'ab' -1 | 3 | Range
Multiply | [1] 3 | 3 | [1 1 1] charges 3
Multiply | [1] -1 | 3 | Range
Multiply | [1] 0 | 3 | []
Multiply | -1 [] | 3 | Range
Multiply | '' 4 | 3 | Spent
Multiply | -1 {} | 3 | Kind
Multiply | [] [] | 3 | Kind
Power | 0 0 | 0 | 1
Power | 2 -1 | 0 | Range
Power | 3 4 | 0 | 81
Power | 0 -1 | 0 | Range
Power | 2 10 | 0 | 1024
Power | 2 126 | 0 | 85070591730234615865843651857942052864
Power | 2 127 | 0 | Wide
Power | -2 127 | 0 | -170141183460469231731687303715884105728
Power | -170141183460469231731687303715884105728 1 | 0 | -170141183460469231731687303715884105728
Power | -170141183460469231731687303715884105728 2 | 0 | Wide
Power | 2 1000000000000000000000000000000 | 0 | Wide
Power | 1 1000000000000000000000000000000 | 0 | 1
Power | -1 1000000000000000000000000000000 | 0 | 1
Power | -1 1000000000000000000000000000001 | 0 | -1
Power | 0 1000000000000000000000000000000 | 0 | 0
Divide | -7 2 | 0 | -3
Divide | 1 0 | 0 | Zero
Divide | 7 -2 | 0 | -3
Divide | -7 -2 | 0 | 3
Divide | 7 2 | 0 | 3
Divide | -6 2 | 0 | -3
Divide | 5 0 | 0 | Zero
Divide | -170141183460469231731687303715884105728 -1 | 0 | Wide
Divide | -170141183460469231731687303715884105728 1 | 0 | -170141183460469231731687303715884105728
Divide | 1 -170141183460469231731687303715884105728 | 0 | 0
Divide | -1 -170141183460469231731687303715884105728 | 0 | 0
Modulo | -7 2 | 0 | 1
Modulo | {1 2} {2 3} | 0 | {1 3}
Modulo | 7 -2 | 0 | 1
Modulo | -7 -2 | 0 | 1
Modulo | 7 2 | 0 | 1
Modulo | -6 2 | 0 | 0
Modulo | 5 0 | 0 | Zero
Modulo | -170141183460469231731687303715884105728 -1 | 0 | 0
Modulo | -170141183460469231731687303715884105728 1 | 0 | 0
Modulo | 1 -170141183460469231731687303715884105728 | 0 | 1
Modulo | -1 -170141183460469231731687303715884105728 | 0 | 170141183460469231731687303715884105727
Max | 2 3 | 0 | 3
Max | 2 'a' | 0 | Kind
Max | 2 -3 | 0 | 2
Min | 2 3 | 0 | 2
Min | * 'a' | 0 | Om
Min | 2 -3 | 0 | -3
Add | {1 2 3 4 5 6 7 8 9 10 11 12 13 14 15 16 17 18 19 20 21 22 23 24 25 26 27 28 29 30 31 32 33 34 35 36 37 38 39 40 41 42 43 44 45 46 47 48} {7 99} | 0 | {1 2 3 4 5 6 7 8 9 10 11 12 13 14 15 16 17 18 19 20 21 22 23 24 25 26 27 28 29 30 31 32 33 34 35 36 37 38 39 40 41 42 43 44 45 46 47 48 99}
Add | {7 99} {1 2 3 4 5 6 7 8 9 10 11 12 13 14 15 16 17 18 19 20 21 22 23 24 25 26 27 28 29 30 31 32 33 34 35 36 37 38 39 40 41 42 43 44 45 46 47 48} | 0 | {1 2 3 4 5 6 7 8 9 10 11 12 13 14 15 16 17 18 19 20 21 22 23 24 25 26 27 28 29 30 31 32 33 34 35 36 37 38 39 40 41 42 43 44 45 46 47 48 99}
Subtract | {1 2 3 4 5 6 7 8 9 10 11 12 13 14 15 16 17 18 19 20 21 22 23 24 25 26 27 28 29 30 31 32 33 34 35 36 37 38 39 40 41 42 43 44 45 46 47 48} {7 99} | 0 | {1 2 3 4 5 6 8 9 10 11 12 13 14 15 16 17 18 19 20 21 22 23 24 25 26 27 28 29 30 31 32 33 34 35 36 37 38 39 40 41 42 43 44 45 46 47 48}
Subtract | {7 99} {1 2 3 4 5 6 7 8 9 10 11 12 13 14 15 16 17 18 19 20 21 22 23 24 25 26 27 28 29 30 31 32 33 34 35 36 37 38 39 40 41 42 43 44 45 46 47 48} | 0 | {99}
Multiply | {1 2 3 4 5 6 7 8 9 10 11 12 13 14 15 16 17 18 19 20 21 22 23 24 25 26 27 28 29 30 31 32 33 34 35 36 37 38 39 40 41 42 43 44 45 46 47 48} {7 99} | 0 | {7}
Multiply | {7 99} {1 2 3 4 5 6 7 8 9 10 11 12 13 14 15 16 17 18 19 20 21 22 23 24 25 26 27 28 29 30 31 32 33 34 35 36 37 38 39 40 41 42 43 44 45 46 47 48} | 0 | {7}
Modulo | {1 2 3 4 5 6 7 8 9 10 11 12 13 14 15 16 17 18 19 20 21 22 23 24 25 26 27 28 29 30 31 32 33 34 35 36 37 38 39 40 41 42 43 44 45 46 47 48} {7 99} | 0 | {1 2 3 4 5 6 8 9 10 11 12 13 14 15 16 17 18 19 20 21 22 23 24 25 26 27 28 29 30 31 32 33 34 35 36 37 38 39 40 41 42 43 44 45 46 47 48 99}";

pub const TRUTHS: &str = "Equal | {} * | 0 | false
Not | true | 0 | false
Not | 1 | 0 | Kind
IsInteger | 1 | 0 | true
IsInteger | * | 0 | false
IsString | 'a' | 0 | true
IsString | '' | 0 | true
IsBoolean | false | 0 | true
IsAtom | 1 | 0 | false
IsAtom | atom 7 | 0 | true
IsTuple | [] | 0 | true
IsSet | {1} | 0 | true
IsSet | {} | 0 | true
IsSet | [] | 0 | false
IsMap | {[1 2]} | 0 | true
IsMap | {1} | 0 | false
IsMap | {} | 0 | true
IsMap | {1 2} | 0 | false
IsMap | * | 0 | false
Equal | * * | 0 | true
Equal | {1 2} {2 1} | 0 | true
Equal | * false | 0 | false
Equal | 'a' 'a' | 0 | true
NotEqual | 1 * | 0 | true
NotEqual | 1 1 | 0 | false
NotEqual | 1 2 | 0 | true
NotEqual | * * | 0 | false
Below | 1 2 | 0 | true
Below | 2 2 | 0 | false
Below | 'a' 'ab' | 0 | true
Below | 1 'a' | 0 | Kind
AtMost | 2 2 | 0 | true
AtMost | 'b' 'ab' | 0 | false
Above | 2 1 | 0 | true
Above | 1 2 | 0 | false
AtLeast | 1 2 | 0 | false
AtLeast | 'b' 'ab' | 0 | true
In | 2 {1 2} | 0 | true
In | 2 [1 *] | 0 | false
In | 2 'a' | 0 | Kind
In | 2 [1 2] | 0 | true
In | 3 [1 2] | 0 | false
In | 'a' 'a' | 0 | Kind
In | 3 {2 3} | 0 | true
In | 3 {1 2} | 0 | false
NotIn | 2 {1} | 0 | true
NotIn | 1 {1} | 0 | false
NotIn | 2 {1 2} | 0 | false
NotIn | 'a' 'a' | 0 | Kind
Subset | {1} {1 2} | 0 | true
Subset | {1 2} {1} | 0 | false
Subset | {1 2} {1 2 3} | 0 | true
Subset | {1 2} {2 3} | 0 | false
Includes | {1 2} {1} | 0 | true
Includes | {1} {1 2} | 0 | false
Subset | {7 9} {1 2 3 4 5 6 7 8 9 10 11 12 13 14 15 16 17 18 19 20 21 22 23 24 25 26 27 28 29 30 31 32 33 34 35 36 37 38 39 40 41 42 43 44 45 46 47 48} | 0 | true
Subset | {7 99} {1 2 3 4 5 6 7 8 9 10 11 12 13 14 15 16 17 18 19 20 21 22 23 24 25 26 27 28 29 30 31 32 33 34 35 36 37 38 39 40 41 42 43 44 45 46 47 48} | 0 | false";

pub const WHOLES: &str = "With | {} 1 | 0 | {1}
Size | {1} | 0 | 1
Size | {} | 0 | 0
Size | 'abc' | 0 | 3
Size | [* 1] | 0 | 2
Size | {3 1 2} | 0 | 3
Size | [4 * 6] | 0 | 3
Pow | {1 2} | 4 | {{} {1} {1 2} {2}} charges 4
Pow | {1 2} | 3 | Spent
Npow | 1 {1 2} | 2 | {{1} {2}} charges 2
Npow | -1 {1 2} | 2 | Range
Npow | 2 {1 2 3} | 3 | {{1 2} {1 3} {2 3}} charges 3
Npow | 2 {1 2 3} | 2 | Spent
Npow | 3 {1 2 3} | 1 | {{1 2 3}} charges 1
Npow | 4 {1 2 3} | 0 | {}
Npow | 170141183460469231731687303715884105727 {1 2 3} | 0 | {}
Npow | -1 {1 2 3} | 9 | Range
Domain | {[1 2] [1 3] [2 5]} | 0 | {1 2}
Domain | {[2 5] [1 3] [1 2]} | 0 | {1 2}
Domain | {1} | 0 | Kind
Range | {[1 2] [1 3] [2 5]} | 0 | {2 3 5}
Range | {1} | 0 | Kind
Range | {[2 5] [1 3] [1 2]} | 0 | {2 3 5}
Arb | {3 2} | 0 | 2
Arb | {} | 0 | *
Arb | {3 1 2} | 0 | 1
With | {2} 1 | 0 | {1 2}
With | [1] 2 | 0 | [1 2]
With | [1] * | 0 | Om
With | {1} 2 | 0 | {1 2}
With | [4 * 6] 2 | 0 | [4 * 6 2]
Less | {1 2} 1 | 0 | {2}
Lessf | {[1 2] [1 3] [2 5]} 1 | 0 | {[2 5]}
Lessf | {[2 5] [1 3] [1 2]} 1 | 0 | {[2 5]}
Get | {[1 2] [1 3] [2 5]} 2 | 0 | 5
Get | {[1 2] [1 3] [2 5]} 1 | 0 | *
Get | [7 8] 3 | 0 | *
Get | 'ab' 2 | 0 | 'b'
Get | 'ab' 0 | 0 | Range
Get | {[2 5] [1 3] [1 2]} 2 | 0 | 5
Get | {[2 5] [1 3] [1 2]} 1 | 0 | *
Get | [4 * 6] 3 | 0 | 6
Get | [4 * 6] 9 | 0 | *
Get | 'abc' 2 | 0 | 'b'
Get | 'abc' 4 | 0 | *
Get | [1 * 3] 1 | 0 | 1
Get | [1 * 3] 2 | 0 | *
Get | [1 * 3] 3 | 0 | 3
Get | [1 * 3] 4 | 0 | *
Get | [1 * 3] 170141183460469231731687303715884105727 | 0 | *
Get | [1 * 3] 0 | 0 | Range
Get | [1 * 3] -170141183460469231731687303715884105728 | 0 | Range
Images | {[1 2] [1 3] [2 5]} 1 | 0 | {2 3}
Images | {[2 5] [1 3] [1 2]} 1 | 0 | {2 3}
Slice | [1 * 3] 1 2 | 0 | [1]
Slice | 'abc' 2 4 | 0 | Range
Slice | [4 * 6] 1 2 | 0 | [4]
Slice | 'abc' 2 3 | 0 | 'bc'
Slice | [1 * 3] 2 3 | 0 | [* 3]
Slice | [1 * 3] 4 3 | 0 | []
Slice | [1 * 3] 3 4 | 0 | Range
Slice | [1 * 3] 0 2 | 0 | Range
Slice | [1 * 3] 3 1 | 0 | Range
Slice | 'abc' 4 3 | 0 | ''
Slice | 'abc' 3 5 | 0 | Range
Slice | 'abc' 0 2 | 0 | Range
Slice | 'abc' 3 1 | 0 | Range
Slice | 'abc' -170141183460469231731687303715884105728 170141183460469231731687303715884105727 | 0 | Range
Tail | 'abc' 2 | 0 | 'bc'
Tail | [4 * 6] 2 | 0 | [* 6]
Tail | 'abc' 4 | 0 | ''
SetOf | 3 1 3 | 0 | {1 3}
SetOf | 3 * | 0 | Om
SetOf |  | 0 | {}
SetOf | * 1 * | 0 | Om
TupleOf | 1 * 3 * | 0 | [1 * 3]
TupleOf | * 1 * | 0 | [* 1]
SetRange | 2 4 | 3 | {2 3 4} charges 3
SetRange | 2 1 | 3 | {}
SetRange | -1 1 | 3 | {-1 0 1} charges 3
SetRange | 170141183460469231731687303715884105727 170141183460469231731687303715884105727 | 3 | {170141183460469231731687303715884105727} charges 1
SetRange | 1 3 | 2 | Spent
SetRange | -170141183460469231731687303715884105728 170141183460469231731687303715884105727 | 100 | Spent
SetRange | 0 170141183460469231731687303715884105727 | 18446744073709551615 | Spent
TupleRange | 2 4 | 3 | [2 3 4] charges 3
TupleRange | 2 4 | 2 | Spent
TupleRange | 1 true | 9 | Kind
SetStep | 5 3 0 | 9 | {1 3 5} charges 3
SetStep | 1 3 6 | 3 | {1 3 5} charges 3
SetStep | 5 3 0 | 3 | {1 3 5} charges 3
SetStep | 5 7 4 | 3 | {}
SetStep | 5 3 5 | 3 | {5} charges 1
SetStep | -170141183460469231731687303715884105728 170141183460469231731687303715884105727 170141183460469231731687303715884105727 | 3 | {-170141183460469231731687303715884105728 170141183460469231731687303715884105727} charges 2
SetStep | 170141183460469231731687303715884105727 -170141183460469231731687303715884105728 -170141183460469231731687303715884105728 | 3 | {-170141183460469231731687303715884105728 170141183460469231731687303715884105727} charges 2
TupleStep | 5 3 0 | 9 | [5 3 1] charges 3
TupleStep | 5 5 0 | 9 | Zero
TupleStep | 5 3 0 | 3 | [5 3 1] charges 3
TupleStep | 1 1 1 | 9 | Zero
Put | {[1 2] [1 3] [2 5]} 1 7 | 0 | {[1 7] [2 5]}
Put | [1] 3 9 | 1 | [1 * 9] charges 1
Put | [1] 3 * | 0 | [1]
Put | [1] * 9 | 0 | Om
Put | [1] 0 9 | 0 | Range
Put | {[2 5] [1 3] [1 2]} 1 7 | 0 | {[1 7] [2 5]}
Put | {[2 5] [1 3] [1 2]} 1 * | 0 | {[2 5]}
Put | {[2 5]} 2 7 | 0 | {[2 7]}
Put | [4 * 6] 2 5 | 2 | [4 5 6]
Put | [4 * 6] 6 5 | 2 | [4 * 6 * * 5] charges 2
Put | [4 * 6] 6 5 | 1 | Spent
Put | [4 * 6] 6 * | 2 | [4 * 6]
Put | [1] 2 9 | 0 | [1 9]
Put | [1] 1 9 | 0 | [9]
Put | [1] 1 * | 0 | []
Put | [1] 4 * | 0 | [1]
Put | [1] 170141183460469231731687303715884105727 * | 0 | [1]
Put | [1] -170141183460469231731687303715884105728 * | 0 | Range
PutImages | {[1 2] [2 5]} 1 {3 4} | 0 | {[1 3] [1 4] [2 5]}
PutImages | {[1 2] [2 5]} 1 {} | 0 | {[2 5]}
PutImages | {[1 2] [2 5]} 1 * | 0 | Om
PutImages | {[2 5] [1 3] [1 2]} 1 {8 9} | 0 | {[1 8] [1 9] [2 5]}
PutImages | {[2 7]} 2 {} | 0 | {}";

pub const FOLDS: &str = "FoldAdd | {1 2 3} | 0 | 6
FoldAdd | ['a' 'b' 'c'] | 0 | 'abc'
FoldAdd | [1 * 3] | 0 | Om
FoldAdd | [1 'a' *] | 0 | Kind
FoldAdd | {} | 0 | *
FoldAdd | 7 | 0 | Kind
FoldMultiply | [2 3 4] | 0 | 24
FoldMultiply | ['a' 2 3] | 5 | 'aaaaaa' charges 5
FoldMultiply | ['a' 2 3] | 4 | Spent
FoldMultiply | [2 3 'a'] | 6 | 'aaaaaa' charges 6
FoldMax | [2 9 4] | 0 | 9
FoldMin | {2 9 4} | 0 | 2
FoldMin | ['a'] | 0 | 'a'
FoldAnd | [true false] | 0 | false
FoldAnd | [false 1] | 0 | Kind
FoldOr | {true false} | 0 | true
Str | {1 'a'} | 0 | '{1 ''a''}'
Str | 'a' | 0 | 'a'";

// Whether an operator has so many operands.
fn takes(what: Operator, n: usize) -> bool
    ensures { OnTrue result (TakesOperands what n) }
{
    match what.operand_count() {
        Some(m) => n == m,
        None => true,
    }
}

// The value and the charge, or the fault.
fn put_outcome(w: &mut Work, answer: &Result<Answer, OpFault>) {
    match answer {
        Ok(a) => {
            w.put_part(&a.value);
            put_charge(w, a.charged);
        }
        Err(e) => w.put_debug(*e),
    }
}

/// The charge, where there is one.
pub fn put_charge(w: &mut Work, charged: u64) {
    if charged > 0 {
        w.put(" charges ");
        w.put_debug(charged);
    }
}

// What an operator makes of operands that it is handed.
fn put_answer(w: &mut Work, what: Operator, turns: u64) {
    let args = std::mem::replace(&mut w.values, Vec::new(w.alloc));
    if takes(what, args.len()) {
        let answer = op(w.alloc, what, args, turns);
        put_outcome(w, &answer);
    }
}

// What an operator makes of one or two operands that it is lent.
fn lent(
    alloc: Global,
    what: Operator,
    args: &[Option<Value>],
    turns: u64,
) -> Option<Result<Answer, OpFault>> {
    match (what.operand_count(), args) {
        (Some(1), [a]) => Some(op_one(alloc, what, a.as_ref(), turns)),
        (Some(2), [a, b]) => Some(op_two(alloc, what, a.as_ref(), b.as_ref(), turns)),
        _ => None,
    }
}

// What an operator makes of its operands, of which it is lent one or two.
fn put_lent(w: &mut Work, what: Operator, turns: u64) {
    match &lent(w.alloc, what, w.values.as_slice(), turns) {
        Some(answer) => put_outcome(w, answer),
        None => put_answer(w, what, turns),
    }
}

fn is_named(what: Operator, name: &str, spelled: &mut String) -> bool {
    spelled.clear();
    write!(spelled, "{what:?}").is_ok() && spelled.as_str() == name
}

// The operator of this name.
fn named(name: &str, spelled: &mut String) -> Option<Operator> {
    for what in OPERATORS {
        if is_named(*what, name, spelled) {
            return Some(*what);
        }
    }
    None
}

/// What is given for the operator, the operands and the turns of a row. An operator with one or two operands may be lent
/// them.
pub fn put_row(w: &mut Work, lends: bool, row: &str) {
    let (name, rest) = row.split_once(" | ").unwrap_or((row, ""));
    let (operands, turns) = rest.rsplit_once(" | ").unwrap_or((rest, ""));
    w.read(operands);
    let what = named(name, &mut String::new(w.alloc));
    let (Some(what), Ok(turns)) = (what, turns.parse()) else {
        return;
    };
    if lends {
        put_lent(w, what, turns);
    } else {
        put_answer(w, what, turns);
    }
}
