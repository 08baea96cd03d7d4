//! What logs of fed producers have to do with the session that these settle.

ghost use Rattle.std.specs.Prelude.{List, length};
ghost use Rattle.tr_pool.specs.Fed.{AreLogsOf};
ghost use Rattle.tr_pool.specs.Logs.{AgreeBelow, IsFirstWrong};
ghost use Rattle.tr_pool.specs.declared.log.Log.{Log};
ghost use Rattle.tr_pool.specs.declared.report.Mismatch.{Mismatch};
ghost use Rattle.tr_seats.specs.Settling.{AreAccountsOf, IsOneEach};
ghost use Rattle.tr_seats.specs.Slots.{ProducerState};
ghost use Rattle.tr_stream.specs.State.{StreamState};

/// Logs of fed producers agree with the streams that these settle, so that nothing is wrong for `reconcile` to answer. Does
/// nothing.
pub fn every_reconciling()
    ensures agree { (producers : List ProducerState) (logs : List Log) (streams : List StreamState)
        → IsOneEach (length streams) producers → AreAccountsOf producers streams → AreLogsOf producers logs
        → AgreeBelow logs streams (length streams) }
    ensures nothing_wrong { (logs : List Log) (streams : List StreamState) (mismatch : Mismatch)
        → AgreeBelow logs streams (length streams) → ¬ IsFirstWrong logs streams mismatch }
{}
