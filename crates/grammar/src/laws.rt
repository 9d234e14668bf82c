// The laws of all rules and all forms: each clause names one, and the check demands its proof.
ghost use Rattle.grammar.specs.Laws.{OneEnd, OneAnswer, StandsComputed, MissingComputed, SaysComputed, SilentComputed, Within, FormWithin, CommaBlind, FormBlind, Progress, FormProgress};
ghost use Rattle.grammar.specs.Forms.{querying};
ghost use Rattle.grammar.specs.Tests.{TameForm, ShyForm, SolidForm};
ghost use Rattle.grammar.specs.Queries.{QueryFits, QueryBlind, SeparatorFits, SeparatorApart, SeparatorComma};

// A rule, and a form, has one answer at a place, and the computation gives it.
pub fn meaning_laws()
    ensures ends { OneEnd }
    ensures answers { OneAnswer }
    ensures stands { StandsComputed }
    ensures missing { MissingComputed }
    ensures says { SaysComputed }
    ensures silent { SilentComputed }
{}

// Answers lie within the text, go on, and do not look past a comma.
pub fn place_laws()
    ensures within { Within }
    ensures within_form { FormWithin }
    ensures blind { CommaBlind }
    ensures blind_form { FormBlind }
    ensures progress { Progress }
    ensures progress_form { FormProgress }
{}

// What the laws say of a query and of a separator.
pub fn query_laws()
    ensures tame { TameForm querying }
    ensures shy { ShyForm querying }
    ensures solid { SolidForm querying }
    ensures fits { QueryFits }
    ensures blind { QueryBlind }
{}

pub fn separator_laws()
    ensures fits { SeparatorFits }
    ensures apart { SeparatorApart }
    ensures comma { SeparatorComma }
{}
