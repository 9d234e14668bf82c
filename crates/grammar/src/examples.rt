// Worked examples, jointly of the one query and the one separator.
ghost use Rattle.grammar.specs.Examples.{CountWraps, MonthLeftOut, ElectronAlone, ElectronUnknown, NotUnknown, NotAlone, BlanksBeforeComma, UnknownWithBlank, PhantomMore, CommaLast, CommaTwice, PointBack, LastABrowser};

pub fn worked_examples()
    ensures count_wraps { CountWraps }
    ensures month_left_out { MonthLeftOut }
    ensures electron_alone { ElectronAlone }
    ensures electron_unknown { ElectronUnknown }
    ensures not_unknown { NotUnknown }
    ensures not_alone { NotAlone }
    ensures blanks_before_comma { BlanksBeforeComma }
    ensures unknown_with_blank { UnknownWithBlank }
    ensures phantom_more { PhantomMore }
    ensures comma_last { CommaLast }
    ensures comma_twice { CommaTwice }
    ensures point_back { PointBack }
    ensures last_a_browser { LastABrowser }
{}
