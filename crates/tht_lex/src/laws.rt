// Laws of the tokens: each function does nothing, and its clause is a law.
ghost use Rattle.tht_lex.specs.Laws.{SomeSplit, OneSplit};

/// Bytes split into tokens, or have a first fault, in one way and no other.
pub fn one_split()
    ensures some { SomeSplit }
    ensures only { OneSplit }
{}
