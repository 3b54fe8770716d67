//! What travels in a cell.

ghost use Rattle.std.specs.Prelude.{◌≡◌, ◌+◌, List, length};

/// A state with a list. The list begins with the state's origin.
pub trait Logged: Drop {
    /// What the list is of: the origin, and the entries behind it.
    type Entry;

    ghost list: { Self → List Self.Entry };

    /// How many entries the list has, its origin not counted.
    fn entries(&self) -> u64
        ensures { result + 1 ≡ length (list self.now) };
}

/// A state in a box has the list of its value. Only the box's address is moved at each turn.
impl<S: Logged> Logged for Box<S> {
    type Entry = S::Entry;

    ghost list = { λ boxed. S.list boxed.value };

    fn entries(&self) -> u64 {
        (**self).entries()
    }
}
