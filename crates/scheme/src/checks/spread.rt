/// How a production carries marks: up, from all its children to its left symbol, or down, from its left symbol to its children.
/// An enum and not a trait: a trait would move the cases of `Meant`, `asked`, `Begun` and `Carried` from specs/ into two impls, and say no less.
#[derive(Clone, Copy, PartialEq, Eq)]
pub enum Spread {
    Up,
    Down,
}
