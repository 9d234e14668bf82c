// What a query says. Borrowed parts of the text are told by their two places.
ghost use Rattle.std.specs.Prelude.{◌≡◌};
ghost use Rattle.grammar.specs.Compare.{test_of};
ghost use Rattle.grammar.specs.Names.{name_of};
ghost use Rattle.std.specs.Ordering.{is_some_and};

// A part of the text: from its start up to its end.
#[derive(Clone, Copy, Debug, PartialEq)]
pub struct Span {
    pub start: usize,
    pub end: usize,
}

#[derive(Clone, Copy, Debug, PartialEq)]
pub enum BaselineKind {
    Year(u32),
    LegacyYear(u32),
    InvalidYear,
    NewlyAvailable,
    NewlyAvailableOnDate,
    WidelyAvailable,
    WidelyAvailableOnDate { year: i64, month: u32, day: u32 },
}

#[derive(Clone, Copy, Debug, PartialEq)]
pub enum QueryAtom {
    Last {
        count: u16,
        major: bool,
        name: Option<Span>,
    },
    Unreleased(Option<Span>),
    Years(Span),
    Since {
        year: i32,
        month: u32,
        day: u32,
    },
    Percentage {
        comparator: Comparator,
        popularity: Span,
        stats: Stats,
    },
    Cover {
        coverage: Span,
        stats: Stats,
    },
    Supports(Span, Option<SupportKind>),
    Electron(VersionRange),
    Node(VersionRange),
    Browser(Span, VersionRange),
    Baseline {
        kind: BaselineKind,
        downstream: bool,
        kaios: bool,
    },
    FirefoxESR,
    OperaMini,
    CurrentNode,
    MaintainedNode,
    Phantom(bool),
    Defaults,
    Dead,
    Unknown(Span),
}

impl QueryAtom {
    // The name of the form. A `match`, since its clause has the names, of which a derived `Debug` says nothing.
    pub fn name(&self) -> &'static str
        ensures { result.now ≡ name_of self.now }
    {
        match *self {
            QueryAtom::Last { .. } => "Last",
            QueryAtom::Unreleased(..) => "Unreleased",
            QueryAtom::Years(..) => "Years",
            QueryAtom::Since { .. } => "Since",
            QueryAtom::Percentage { .. } => "Percentage",
            QueryAtom::Cover { .. } => "Cover",
            QueryAtom::Supports(..) => "Supports",
            QueryAtom::Electron(..) => "Electron",
            QueryAtom::Node(..) => "Node",
            QueryAtom::Browser(..) => "Browser",
            QueryAtom::Baseline { .. } => "Baseline",
            QueryAtom::FirefoxESR => "FirefoxESR",
            QueryAtom::OperaMini => "OperaMini",
            QueryAtom::CurrentNode => "CurrentNode",
            QueryAtom::MaintainedNode => "MaintainedNode",
            QueryAtom::Phantom(..) => "Phantom",
            QueryAtom::Defaults => "Defaults",
            QueryAtom::Dead => "Dead",
            QueryAtom::Unknown(..) => "Unknown",
        }
    }
}

#[derive(Clone, Copy, Debug, PartialEq)]
pub enum Stats {
    Global,
    Region(Span),
}

#[derive(Clone, Copy, Debug, PartialEq)]
pub enum SupportKind {
    Fully,
    Partially,
}

#[derive(Clone, Copy, Debug, PartialEq)]
pub enum Comparator {
    Less,
    LessOrEqual,
    Greater,
    GreaterOrEqual,
}

impl Comparator {
    pub fn compare<T: PartialOrd + Drop>(self, value: T, target: T) -> bool
        ensures { result ≡ is_some_and (test_of self) (T.PartialOrd.partial_cmp value target) }
    {
        match self {
            Comparator::Greater => value > target,
            Comparator::GreaterOrEqual => value >= target,
            Comparator::Less => value < target,
            Comparator::LessOrEqual => value <= target,
        }
    }
}

#[derive(Clone, Copy, Debug, PartialEq)]
pub enum VersionRange {
    Bounded(Span, Span),
    Unbounded(Comparator, Span),
    Accurate(Span),
    // The technology preview, which the text spells `tp`.
    Preview,
}

#[derive(Clone, Copy, Debug, PartialEq)]
pub struct SingleQuery {
    pub raw: Span,
    pub atom: QueryAtom,
    pub negated: bool,
    pub is_and: bool,
}
