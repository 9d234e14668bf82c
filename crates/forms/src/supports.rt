// The forms with `supports`.
ghost use Rattle.std.specs.Prelude.{None};
ghost use Rattle.grammar.specs.Form.{skip};
ghost use Rattle.grammar.specs.Forms.{supporting};
ghost use Rattle.grammar.specs.Tokens.{word, blanks};
ghost use Rattle.scanner.specs.Position.{Reads};

use grammar::query::{QueryAtom, SupportKind};
use scanner::cursor::Cursor;
use scanner::trial::Trial;
use texts::text::Text;

// `supports` and a feature.
pub fn parse_supports_only<T: Text>(cursor: &mut Cursor<T>) -> Option<QueryAtom>
    ensures { Reads (supporting None) result cursor.old cursor.new }
{
    let mut trial = Trial::begin(cursor);
    if !trial.cursor.match_keyword(b"supports") || !trial.cursor.skip_whitespace1() {
        return None;
    }
    let feature = trial.cursor.parse_feature_name()?;
    trial.accepted = true;
    Some(QueryAtom::Supports(feature, None))
}

// A word that says the kind, `supports` and a feature.
// It spells `supports` out again: with a call in its place the proof does not close, since the check does not
// compute what a callee's argument of type Option is.
pub fn parse_kind_supports<T: Text>(
    cursor: &mut Cursor<T>,
    keyword: &[u8],
    kind: Option<SupportKind>,
) -> Option<QueryAtom>
    ensures { Reads (skip (word keyword.now) (skip blanks (supporting kind))) result cursor.old cursor.new }
{
    let mut trial = Trial::begin(cursor);
    if !trial.cursor.match_keyword(keyword)
        || !trial.cursor.skip_whitespace1()
        || !trial.cursor.match_keyword(b"supports")
        || !trial.cursor.skip_whitespace1()
    {
        return None;
    }
    let feature = trial.cursor.parse_feature_name()?;
    trial.accepted = true;
    Some(QueryAtom::Supports(feature, kind))
}
