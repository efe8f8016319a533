//! What a hall has, and what is done to it.
ghost use Rattle.std.specs.Prelude.{◌≡◌, ◌++◌, List, length};

/// A value that is seen as an origin, which no job changes, and a history, a list of entries that
/// only grows.
pub trait Object {
    /// What the history is a list of.
    type Entry;

    /// What never changes of the object.
    type Origin;

    ghost origin: { Self → Self.Origin };

    ghost history: { Self → List Self.Entry };

    /// The number of entries of the history.
    fn length(&self) -> u64
        ensures { result ≡ length (history self.now) };
}

/// What is done to the object in one turn. It appends its entries to the history and changes no
/// other part of it.
pub trait Job<O: Object> {
    /// The entries that it appended, of the job before the turn and after it.
    ghost entries: { Self → Self → List O.Entry };
    /// What the job means: a relation between the object's origin, the job and the history before,
    /// and the job and the history after.
    ghost ran: { O.Origin → Self → List O.Entry → Self → List O.Entry → Type 0 };

    /// Does it. What the job has to tell, it keeps in itself.
    fn run(&mut self, object: &mut O)
        ensures origin { O.origin object.new ≡ O.origin object.old }
        ensures history { O.history object.new ≡ O.history object.old ++ entries self.old self.new }
        ensures ran { ran (O.origin object.old) self.old (O.history object.old) self.new (O.history object.new) };
}
