// A query as 24 numbers. Kinds, comparators and flags are numbers here, since C reads them as words.
ghost use Rattle.std.specs.Prelude.{◌≡◌};
ghost use Rattle.exports.specs.Layout.{plain_fields, range_fields, baseline_fields, stats_fields, comparator_number, name_fields, support_number, fields_of, words_of};

use grammar::query::{
    BaselineKind, Comparator, QueryAtom, SingleQuery, Span, Stats, SupportKind, VersionRange,
};

// What a query says, each part in a place of its own; what its form has not is 0.
#[derive(Clone, Copy)]
pub struct Fields {
    pub form: u64,
    pub kind: u64,
    pub comparator: u64,
    pub number: u64,
    pub month: u64,
    pub day: u64,
    pub first_flag: u64,
    pub second_flag: u64,
    pub name: Span,
    pub amount: Span,
    pub version: Span,
    pub upper: Span,
    pub region: Span,
}

const NOWHERE: Span = Span { start: 0, end: 0 };

fn blank_fields(form: u64) -> Fields
    ensures { result ≡ plain_fields form }
{
    Fields {
        form,
        kind: 0,
        comparator: 0,
        number: 0,
        month: 0,
        day: 0,
        first_flag: 0,
        second_flag: 0,
        name: NOWHERE,
        amount: NOWHERE,
        version: NOWHERE,
        upper: NOWHERE,
        region: NOWHERE,
    }
}

// C has numbers of its own for these, which are no discriminants of the grammar's.
fn comparator_number(comparator: Comparator) -> u64
    ensures { result ≡ comparator_number comparator }
{
    match comparator {
        Comparator::Less => 1,
        Comparator::LessOrEqual => 2,
        Comparator::Greater => 3,
        Comparator::GreaterOrEqual => 4,
    }
}

fn with_name(form: u64, name: Option<Span>) -> Fields
    ensures { result ≡ name_fields form name }
{
    match name {
        Some(name) => Fields {
            kind: 1,
            name,
            ..blank_fields(form)
        },
        None => blank_fields(form),
    }
}

fn with_stats(form: u64, amount: Span, stats: Stats) -> Fields
    ensures { result ≡ stats_fields form amount stats }
{
    match stats {
        Stats::Global => Fields {
            amount,
            ..blank_fields(form)
        },
        Stats::Region(region) => Fields {
            kind: 1,
            amount,
            region,
            ..blank_fields(form)
        },
    }
}

fn with_range(form: u64, name: Span, range: VersionRange) -> Fields
    ensures { result ≡ range_fields form name range }
{
    match range {
        VersionRange::Bounded(version, upper) => Fields {
            kind: 1,
            name,
            version,
            upper,
            ..blank_fields(form)
        },
        VersionRange::Unbounded(comparator, version) => {
            Fields {
                kind: 2,
                comparator: comparator_number(comparator),
                name,
                version,
                ..blank_fields(form)
            }
        }
        VersionRange::Accurate(version) => Fields {
            kind: 3,
            name,
            version,
            ..blank_fields(form)
        },
        VersionRange::Preview => Fields {
            kind: 4,
            name,
            ..blank_fields(form)
        },
    }
}

fn of_baseline(kind: BaselineKind) -> Fields
    ensures { result ≡ baseline_fields kind }
{
    match kind {
        BaselineKind::Year(year) => Fields {
            kind: 1,
            number: u64::from(year),
            ..blank_fields(11)
        },
        BaselineKind::LegacyYear(year) => Fields {
            kind: 2,
            number: u64::from(year),
            ..blank_fields(11)
        },
        BaselineKind::InvalidYear => Fields {
            kind: 3,
            ..blank_fields(11)
        },
        BaselineKind::NewlyAvailable => Fields {
            kind: 4,
            ..blank_fields(11)
        },
        BaselineKind::NewlyAvailableOnDate => Fields {
            kind: 5,
            ..blank_fields(11)
        },
        BaselineKind::WidelyAvailable => Fields {
            kind: 6,
            ..blank_fields(11)
        },
        BaselineKind::WidelyAvailableOnDate { year, month, day } => {
            Fields {
                kind: 7,
                number: year.cast_unsigned(),
                month: u64::from(month),
                day: u64::from(day),
                ..blank_fields(11)
            }
        }
    }
}

fn support_number(kind: Option<SupportKind>) -> u64
    ensures { result ≡ support_number kind }
{
    match kind {
        None => 0,
        Some(SupportKind::Fully) => 1,
        Some(SupportKind::Partially) => 2,
    }
}

fn fields_of(atom: QueryAtom) -> Fields
    ensures { result ≡ fields_of atom }
{
    match atom {
        QueryAtom::Last { count, major, name } => {
            Fields {
                number: u64::from(count),
                first_flag: u64::from(major),
                ..with_name(1, name)
            }
        }
        QueryAtom::Unreleased(name) => with_name(2, name),
        QueryAtom::Years(amount) => Fields {
            amount,
            ..blank_fields(3)
        },
        QueryAtom::Since { year, month, day } => Fields {
            number: u64::from(year.cast_unsigned()),
            month: u64::from(month),
            day: u64::from(day),
            ..blank_fields(4)
        },
        QueryAtom::Percentage {
            comparator,
            popularity,
            stats,
        } => {
            Fields {
                comparator: comparator_number(comparator),
                ..with_stats(5, popularity, stats)
            }
        }
        QueryAtom::Cover { coverage, stats } => with_stats(6, coverage, stats),
        QueryAtom::Supports(name, kind) => Fields {
            kind: support_number(kind),
            name,
            ..blank_fields(7)
        },
        QueryAtom::Electron(range) => with_range(8, NOWHERE, range),
        QueryAtom::Node(range) => with_range(9, NOWHERE, range),
        QueryAtom::Browser(name, range) => with_range(10, name, range),
        QueryAtom::Baseline {
            kind,
            downstream,
            kaios,
        } => {
            Fields {
                first_flag: u64::from(downstream),
                second_flag: u64::from(kaios),
                ..of_baseline(kind)
            }
        }
        QueryAtom::FirefoxESR => blank_fields(12),
        QueryAtom::OperaMini => blank_fields(13),
        QueryAtom::CurrentNode => blank_fields(14),
        QueryAtom::MaintainedNode => blank_fields(15),
        QueryAtom::Phantom(second) => Fields {
            kind: u64::from(second),
            ..blank_fields(16)
        },
        QueryAtom::Defaults => blank_fields(17),
        QueryAtom::Dead => blank_fields(18),
        QueryAtom::Unknown(name) => Fields {
            name,
            ..blank_fields(19)
        },
    }
}

// The 24 words of a query.
pub fn words_of(query: SingleQuery) -> [u64; 24]
    ensures { result ≡ words_of query }
{
    let f = fields_of(query.atom);
    [
        query.raw.start as u64,
        query.raw.end as u64,
        u64::from(query.negated),
        u64::from(query.is_and),
        f.form,
        f.kind,
        f.comparator,
        f.number,
        f.month,
        f.day,
        f.first_flag,
        f.second_flag,
        f.name.start as u64,
        f.name.end as u64,
        f.amount.start as u64,
        f.amount.end as u64,
        f.version.start as u64,
        f.version.end as u64,
        f.upper.start as u64,
        f.upper.end as u64,
        f.region.start as u64,
        f.region.end as u64,
        0,
        0,
    ]
}
