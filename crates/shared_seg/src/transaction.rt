ghost use Rattle.std.specs.Prelude.{◌≡◌, ◌<◌, length, slice_set, vec_len};
ghost use Rattle.history_ledger.specs.Words.{IsCounted};
ghost use Rattle.shared_seg.specs.Transactions.{transaction_at, transaction_by, xid_at};

use base_types::Xid;
use event_kinds::Event;
use history_ledger::running_after;
use txn_blocks::RunningTransaction;

// What the backend runs after an event in its command of this number. Condition: what it has published after a
// publish can be counted.
pub(crate) fn enter_running(
    transactions: &mut Vec<Option<RunningTransaction>>,
    b: u32,
    command: u32,
    event: &Event,
)
    requires within { b < vec_len transactions.old }
    requires counted { IsCounted event.now (transaction_at transactions.old.items b) }
    ensures { transactions.new.items ≡ slice_set transactions.old.items b (transaction_by command event.now (transaction_at transactions.old.items b)) }
{
    let running = transactions[b as usize];
    transactions[b as usize] = running_after(command, event, running);
}

// The Xid of the backend's running transaction, once it has written.
pub(crate) fn own_xid(transactions: &[Option<RunningTransaction>], b: u32) -> Option<Xid>
    requires { b < length transactions.now }
    ensures { result ≡ xid_at transactions.now b }
{
    match transactions[b as usize] {
        Some(transaction) => transaction.xid,
        None => None,
    }
}
