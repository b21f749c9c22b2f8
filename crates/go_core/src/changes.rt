// What each step makes of a party's view.
ghost use Rattle.std.specs.Prelude.{
  ◌≡◌,
  ◌+◌,
  ◌^◌,
  ◌<◌,
  ◌≤◌,
  [],
  length,
  find,
  Some,
  IsTrue,
  ◌↔◌,
  OnOk,
  OnErr,
};
ghost use Rattle.go_core.specs.View.{
  stands_at,
  spent,
  unmoved,
  claimed,
  knowing_head,
  knowing_archived,
  knowing_durable,
  stored,
  took as took_view,
  read_ahead as read_ahead_view,
  raising,
  split_off as split_off_view,
  joining,
};
ghost use Rattle.go_core.specs.Fronts.{knowing_front, moving_front};
ghost use Rattle.go_core.specs.Opening.{opening_view, archives_as, flushes_as};

use crate::act::Role;
use crate::entry::{Entry, Load};
use crate::lists;
use crate::view::View;
use go_word::Edge;
use std::alloc::{AllocError, Global};
use std::collections::LinkedList;
use std::mem;

// More entries than one list holds.
const LIMIT: usize = 1 << 63;

// The view of a party of a role as the machine begins.
pub(crate) fn opening(alloc: Global, first: u64, role: Role) -> View
    ensures { result ≡ opening_view first (archives_as role) (flushes_as role) }
{
    View {
        live: true,
        archives: role == Role::Archiver,
        flushes: role == Role::Flusher,
        seen: first,
        taken: first,
        head: first,
        archived: first,
        durable: first,
        disk_raised: false,
        memory_raised: false,
        pending: LinkedList::new(alloc),
        abandoned: LinkedList::new(alloc),
        own: LinkedList::new(alloc),
        joined: LinkedList::new(alloc),
        loads: LinkedList::new(alloc),
        marked: first,
        fresh: false,
    }
}

// The view of a party that takes no part any more.
pub(crate) fn nothing(alloc: Global) -> View
    ensures { result ≡ spent }
{
    View {
        live: false,
        seen: 0,
        taken: 0,
        head: 0,
        archived: 0,
        durable: 0,
        marked: 0,
        ..opening(alloc, 0, Role::Session)
    }
}

impl View {
    // A step that told it nothing.
    pub(crate) fn stay(&mut self)
        ensures { self.new ≡ unmoved self.old }
    {
        self.fresh = false;
    }

    // A claim of the edges from a position on.
    pub(crate) fn claim(
        &mut self,
        alloc: Global,
        first: u64,
        edges: &[Edge],
    ) -> Result<(), AllocError>
        requires { first + length edges.now < 2 ^ 64 }
        ensures ok { OnOk result (self.new ≡ claimed first edges.now self.old) }
        ensures err { OnErr result (self.new ≡ self.old) }
    {
        let mut entries = lists::number(alloc, first, edges)?;
        self.pending.append(&mut entries)?;
        self.fresh = false;
        Ok(())
    }

    // A load of the log's length.
    pub(crate) fn know_head(&mut self, head: u64)
        ensures { self.new ≡ knowing_head head self.old }
    {
        self.head = head;
        self.fresh = true;
    }

    // A load of the archived front.
    pub(crate) fn know_archived(&mut self, alloc: Global, front: u64) -> Result<(), AllocError>
        ensures ok { OnOk result (self.new ≡ knowing_archived front self.old) }
        ensures err { OnErr result (self.new ≡ self.old) }
    {
        let seen = self.seen.max(front);
        let (loads, marked) = if self.fresh {
            (LinkedList::new(alloc), seen)
        } else {
            (lists::assured(alloc, &self.loads, front)?, self.marked)
        };
        self.archived = front;
        self.seen = seen;
        self.loads = loads;
        self.marked = marked;
        self.fresh = false;
        Ok(())
    }

    // A load of the durable front.
    pub(crate) fn know_durable(&mut self, alloc: Global, front: u64) -> Result<(), AllocError>
        ensures ok { OnOk result (self.new ≡ knowing_durable front self.old) }
        ensures err { OnErr result (self.new ≡ self.old) }
    {
        self.loads = lists::assured(alloc, &self.loads, front)?;
        self.durable = front;
        self.seen = self.seen.max(front);
        self.fresh = false;
        Ok(())
    }

    // A load of a front.
    pub(crate) fn know_front(
        &mut self,
        alloc: Global,
        shard: bool,
        front: u64,
    ) -> Result<(), AllocError>
        ensures ok { OnOk result (self.new ≡ knowing_front shard front self.old) }
        ensures err { OnErr result (self.new ≡ self.old) }
    {
        if shard {
            self.know_archived(alloc, front)
        } else {
            self.know_durable(alloc, front)
        }
    }

    // A store of the word of a pending entry.
    pub(crate) fn store(&mut self, entry: Entry) -> Result<(), AllocError>
        ensures ok { OnOk result (self.new ≡ stored entry self.old) }
        ensures err { OnErr result (self.new ≡ self.old) }
    {
        lists::put_in_order(&mut self.own, entry)?;
        lists::take_out(&mut self.pending, entry.at);
        self.fresh = false;
        Ok(())
    }

    // A word that was read in order and is that of its position.
    pub(crate) fn take(&mut self, at: u64)
        requires { at + 1 < 2 ^ 64 }
        ensures { self.new ≡ took_view at self.old }
    {
        self.seen = self.seen.max(at + 1);
        self.taken = self.taken.max(at + 1);
        self.fresh = false;
    }

    // A store of a front.
    pub(crate) fn move_front(&mut self, shard: bool, front: u64)
        ensures { self.new ≡ moving_front shard front self.old }
    {
        if shard {
            self.archived = front;
        } else {
            self.durable = front;
        }
        self.fresh = false;
    }

    // A word that was read ahead of its turn.
    pub(crate) fn read_ahead(&mut self, at: u64, word: u64) -> Result<(), AllocError>
        ensures ok { OnOk result (self.new ≡ read_ahead_view at word self.old) }
        ensures err { OnErr result (self.new ≡ self.old) }
    {
        let load = Load {
            at,
            word,
            sure: false,
        };
        self.loads.push_back(load)?;
        self.fresh = false;
        Ok(())
    }

    // A store of the flag.
    pub(crate) fn raise(&mut self, why: u64)
        ensures { self.new ≡ raising why self.old }
    {
        self.disk_raised = self.disk_raised || why == 1;
        self.memory_raised = self.memory_raised || why == 2;
        self.fresh = false;
    }

    // What a new party has, which is split off.
    pub(crate) fn split_off(&self, alloc: Global) -> View
        ensures { result ≡ split_off_view self.now }
    {
        View {
            live: self.live,
            seen: self.seen,
            taken: self.taken,
            head: self.head,
            archived: self.archived,
            durable: self.durable,
            marked: self.marked,
            ..opening(alloc, 0, Role::Session)
        }
    }

    // Joins another party's view in; that one is empty afterwards.
    pub(crate) fn join(&mut self, alloc: Global, other: &mut View) -> Result<(), AllocError>
        ensures ok { OnOk result (self.new ≡ joining self.old other.old) }
        ensures err { OnErr result (self.new ≡ self.old) }
        ensures other_err { OnErr result (other.new ≡ other.old) }
    {
        if !fit(self.abandoned.len(), other.abandoned.len())
            || !fit(self.joined.len(), other.joined.len() + 1)
        {
            return Err(AllocError);
        }
        let own = mem::replace(&mut other.own, LinkedList::new(alloc));
        if let Err(refused) = other.joined.push_front(own) {
            other.own = refused.value;
            return Err(AllocError);
        }
        let _joined = self.joined.append(&mut other.joined);
        let _abandoned = self.abandoned.append(&mut other.abandoned);
        self.seen = self.seen.max(other.seen);
        self.head = self.head.max(other.head);
        self.archived = self.archived.max(other.archived);
        self.durable = self.durable.max(other.durable);
        self.disk_raised = self.disk_raised || other.disk_raised;
        self.memory_raised = self.memory_raised || other.memory_raised;
        self.fresh = false;
        Ok(())
    }
}

// Whether two lists of these lengths fit into one.
pub(crate) fn fit(left: usize, right: usize) -> bool
    requires { right ≤ 2 ^ 63 }
    ensures { IsTrue result ↔ (left + right < 2 ^ 63) }
{
    left < LIMIT - right
}
