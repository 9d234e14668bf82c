// The laws of readings: queries with separators between them make up a text in one way at most, and a comma joins two texts.
ghost use Rattle.grammar.specs.Along.{FormShift, QueryMoves, AnyGrammar, queries};
ghost use Rattle.grammar.specs.Readings.{Sound, Single, Spells, Joins};

// What stands before a place does not matter, but that it moves places along.
pub fn shift_laws()
    ensures forms { FormShift }
    ensures query { QueryMoves }
{}

pub fn reading_laws()
    ensures any { AnyGrammar }
    ensures sound { Sound queries }
    ensures single { Single queries }
    ensures spells { Spells queries }
    ensures joins { Joins queries }
{}
