// The patterns of folds, looked for in the tables of a program. Nothing here changes a table.
#![tactic(auto)]

pub mod counting; // references to a statement
pub mod labels; // inner labels
pub mod list; // the patterns in their order
pub mod shapes; // the two shapes of a pattern
pub mod significance; // the next statement of a pattern
pub mod targets; // what a pattern asks of one statement

// A pattern by the forms of its branch: the pair's other branch takes its place, or the same one stays.
#[derive(Clone, Copy)]
pub enum Pattern {
    Inverted(u8, u8),
    Trampoline(u8),
}
