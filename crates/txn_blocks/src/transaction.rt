ghost use Rattle.std.specs.Prelude.{◌≡◌};

use base_types::Xid;

/// The transaction that a backend runs.
#[derive(Clone, Copy)]
pub struct RunningTransaction {
    /// Its first command.
    pub first: u32,
    /// Its Xid, once it has written.
    pub xid: Option<Xid>,
    /// How many of its messages are published.
    pub published: usize,
    /// Whether it is committed, and holds its locks still.
    pub visible: bool,
}

impl RunningTransaction {
    ghost use Rattle.std.specs.Prelude.{Some};
    ghost use Rattle.txn_blocks.specs.Transactions.{begun_own, released_own, ends_own};

    /// The running transaction, or one that begins with the command of this number.
    pub fn begun(number: u32, running: Option<RunningTransaction>) -> RunningTransaction
        ensures { result ≡ begun_own number running }
    {
        running.unwrap_or(RunningTransaction {
            first: number,
            xid: None,
            published: 0,
            visible: false,
        })
    }

    /// The transaction, once it has written.
    pub fn with_xid(self, xid: Xid) -> RunningTransaction
        ensures { result ≡ record self { xid = Some xid } }
    {
        RunningTransaction {
            xid: Some(xid),
            ..self
        }
    }

    /// The transaction after the release of the locks of the commands of this number and above, if it
    /// goes on.
    pub fn released(self, from: u32) -> Option<RunningTransaction>
        ensures { result ≡ released_own from self }
    {
        if self.first == from { None } else { Some(self) }
    }

    /// Whether such a release ends the transaction, if one runs.
    pub fn ends(from: u32, running: Option<RunningTransaction>) -> bool
        ensures { result ≡ ends_own from running }
    {
        match running {
            Some(own) => own.first == from,
            None => false,
        }
    }
}
