ghost use Rattle.std.specs.Prelude.{◌≡◌, ◌≤◌, ◌-◌, ◌^◌, ◌<◌, ◌++◌, [], length, min, take, drop, IfOk};

use crate::reader::MOST_FETCHED;
use arrayvec::ArrayVec;
use base_types::NoMemory;
use circular_buffer::HeapCircularBuffer;
use ghost_list::GhostList;
use inval_messages::Message;
use std::alloc::Global;
use std::marker::Model;

// The last messages of all that were inserted, as many as there is room for.
#[derive(Drop)]
pub(crate) struct Window {
    buffer: HeapCircularBuffer<Message>,
    // all of them, in order; contracts alone see it
    log: GhostList<Message>,
}

impl Model for Window {
    ghost use Rattle.sinval_ring.specs.Windows.{Window};

    ghost Value = { Window };

    ghost use Rattle.sinval_ring.specs.WindowParts.{window, IsWindow};

    ghost view = { window };

    ghost invariant = { IsWindow };
}

impl Window {
    // No messages, and room for so many.
    pub(crate) fn new(alloc: Global, size: u32) -> Result<Window, NoMemory>
        ensures size { IfOk result (λ window. window.size ≡ size) }
        ensures log { IfOk result (λ window. window.log ≡ []) }
    {
        let buffer = HeapCircularBuffer::with_capacity(alloc, size as usize)?;
        Ok(Window {
            buffer,
            log: GhostList::new(),
        })
    }

    // How many messages there is room for.
    pub(crate) fn size(&self) -> u64
        ensures { result ≡ self.now.size }
    {
        self.buffer.capacity() as u64
    }

    // Appends messages. The oldest go where there is no room for all.
    pub(crate) fn append(&mut self, messages: &[Message])
        ensures size { self.new.size ≡ self.old.size }
        ensures log { self.new.log ≡ self.old.log ++ messages.now }
    {
        let Window { buffer, log } = self;
        buffer.extend_from_slice(messages);
        log.extend(messages);
    }

    // Copies the next messages for a reader that is so many behind the end, at most 32.
    pub(crate) fn copy(&self, behind: u64, into: &mut ArrayVec<Message, 32>)
        requires within { behind ≤ length self.now.log }
        requires kept { behind ≤ self.now.size }
        requires empty { into.old.items ≡ [] }
        ensures { into.new.items ≡ take (min 32 behind) (drop (length self.now.log - behind) self.now.log) }
    {
        let from = self.buffer.len() - behind as usize;
        let count = MOST_FETCHED.min(behind) as usize;
        for i in 0..count {
            let Some(message) = self.buffer.get(from + i) else {
                unreachable!()
            };
            into.push(*message);
        }
    }
}
