// Laws of the rules and of the measure that they are sound by: each function does nothing, and its clause is a law.
ghost use Rattle.hoare_laws.specs.Laws.{AcceptedIsSound, KeepsFewer, PlainFiles, SequenceAndFrame};

/// An accepted file is sound: no step of any run of it is a fault, and where main has a value, the cells that are left
/// satisfy main's postcondition.
pub fn accepted_is_sound()
    ensures { AcceptedIsSound }
{}

/// A branch that keeps to a postcondition for one step more keeps to it.
pub fn keeps_fewer()
    ensures { KeepsFewer }
{}

/// A body that keeps to a postcondition, beside a frame, and then what follows it, keep to that one's postcondition.
pub fn sequence_and_frame()
    ensures { SequenceAndFrame }
{}

/// The programs of a file whose forms are built and whose names and sorts are in order are plain: no term of them makes a sequence, and
/// they call procs of the file alone.
pub fn ordered_is_plain()
    ensures { PlainFiles }
{}
