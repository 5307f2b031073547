//! A market's state in another market.
ghost use Rattle.std.specs.Prelude.{◌≡◌};

use crate::interface::Market;

/// The second market takes the first one's state, through its saved body: what is saved loads again,
/// as the same state.
pub fn copy_state<M: Market>(from: &M, to: &mut M)
    ensures { M.means to.new ≡ M.means from.now }
{
    let mut body = [0; 1536];
    from.save(&mut body);
    let _ = to.load(&body);
}
