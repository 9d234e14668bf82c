// The switch's own pile: its chain memory under a cover, joined with the site's bytes, trimmed.
#![tactic(auto)]

ghost use Rattle.std.specs.Result.{MatchResult};
ghost use Rattle.replay.specs.Law.{Replayed, Unread};
ghost use Rattle.pile.specs.Pile.{piled};

use chain::store::ChainStore;
use layers::cover::Cover;
use layers::join::Join;
use reader::refusal::Refusal;
use replay::calls::Exchange;
use replay::replay::replay;
use texts::store::ByteStore;
use texts::trim::Trim;

// Makes the calls on a reader of the pile: the law of readers holds, told of the memory and the bytes themselves.
pub fn replay_pile(
    memory: &[u8],
    first: u16,
    site: &[u8],
    exchanges: &mut [Exchange],
) -> Result<usize, Refusal>
    ensures { MatchResult result (Replayed (piled memory.now first site.now) exchanges.old exchanges.new) (Unread (piled memory.now first site.now) exchanges.old exchanges.new) }
{
    let store = ChainStore::new(memory, first);
    let join = Join::new(Cover::new(store), ByteStore::new(site));
    let pile = Trim::new(join);
    replay(&pile, exchanges)
}
