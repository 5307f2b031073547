//! The promises.
ghost use Rattle.protocol.specs.Worlds.{rules_of};
ghost use Rattle.protocol.specs.Promises.{PromisesHold};
ghost use Rattle.protocol.specs.Witness.{ARun};

use market::interface::Market;

/// Every run of an exchange with this market, over any device, keeps the promises.
pub fn promises_stand<M: Market>()
    ensures { PromisesHold (rules_of M.Market) }
{}

/// There is a market that keeps the laws, and a run of an exchange with it: a snapshot, a write that
/// is cut, and an opening that reaches live and adds the page of that write.
pub fn runs_exist()
    ensures { ARun }
{}
