//! Who owns a mutex, with whom a once control is busy, and who waits.

use crate::kinds::Kind;
use crate::run::Run;
use crate::trace_lines::Step;

/// Rows in which a mutex has an owner, or in which a once control is busy.
#[derive(Clone, Copy)]
pub(crate) struct Owner<'a> {
    pub(crate) process: usize,
    /// The name of the mutex, or of the control.
    pub(crate) name: &'a str,
    /// The index of the thread that owns the mutex. It is `None` in the child of a fork, if that has no such thread.
    pub(crate) thread: Option<usize>,
    /// The place of the mutex beside the lane, as a bit, or 0.
    pub(crate) place: u32,
    /// Whether it is a once control, which has no bar.
    pub(crate) is_control: bool,
    /// The row of the step from which on it has the owner.
    pub(crate) first: usize,
    /// The number of rows before that one that are shown.
    pub(crate) position: usize,
    /// The index of the first owner with this position.
    pub(crate) group: usize,
    /// The row of the step up to which it has the owner. It is `None` if it has it after the last step.
    pub(crate) last: Option<usize>,
}

/// Rows in which a thread waits, or is suspended in a call.
#[derive(Clone, Copy)]
pub(crate) struct Wait {
    /// The index of the thread.
    pub(crate) thread: usize,
    /// The row up to which its wait before this one was, or in which it came into being.
    pub(crate) after: usize,
    pub(crate) first: usize,
    /// The row up to which it waits. That of a wait after the last step is past all rows.
    pub(crate) last: usize,
}

impl<'a> Owner<'a> {
    // A mutex or a once control of a process with this name, which no thread has yet.
    fn new(process: usize, name: &'a str, is_control: bool) -> Owner<'a> {
        Owner {
            process,
            name,
            thread: None,
            place: 0,
            is_control,
            first: 0,
            position: 0,
            group: 0,
            last: None,
        }
    }
}

impl<'a> Run<'a> {
    // ---- mutexes and once controls

    /// The thread with this index owns a mutex of its process.
    pub(crate) fn acquire(&mut self, index: usize, process: usize, mutex: &'a str) {
        let place = match self.threads.get_mut(index) {
            Some(thread) => thread.own(),
            None => 0,
        };
        self.add_owner(Owner {
            thread: Some(index),
            place,
            ..Owner::new(process, mutex, false)
        });
    }

    /// The thread with this index calls the init routine of a once control of its process.
    pub(crate) fn begin_once(&mut self, index: usize, process: usize, control: &'a str) {
        self.add_owner(Owner {
            thread: Some(index),
            ..Owner::new(process, control, true)
        });
    }

    /// The thread with this index begins to end: no once control is busy with it any more.
    pub(crate) fn give_up_controls(&mut self, index: usize) {
        let row = self.rows.len();
        for owner in self.owners.iter_mut() {
            if owner.is_control && owner.last.is_none() && owner.thread == Some(index) {
                owner.last = Some(row);
            }
        }
    }

    // Adds an owner from the row on that is added.
    fn add_owner(&mut self, owner: Owner<'a>) {
        let owner = Owner {
            first: self.rows.len(),
            position: self.shown_rows,
            group: self.first_owner(),
            ..owner
        };
        let is_added = self.owners.push(owner).is_ok();
        self.note_memory(is_added);
    }

    /// The index of the first owner whose bar begins at the position of the row that is added.
    pub(crate) fn first_owner(&self) -> usize {
        match self.owners.last() {
            Some(owner) if owner.position == self.shown_rows => owner.group,
            _ => self.owners.len(),
        }
    }

    /// The thread with this index owns a mutex of its process no more, or the init routine of a once control has returned in it.
    pub(crate) fn release(&mut self, index: usize, process: usize, name: &str) {
        let at = self.open_owner(process, name);
        let mut place = 0;
        if let Some(owner) = self.owners.get_mut(at) {
            owner.last = Some(self.rows.len());
            place = owner.place;
        }
        if let Some(thread) = self.threads.get_mut(index) {
            thread.disown(place);
        }
    }

    // The index of the last owner that has this mutex or once control still. If there is none it is past all owners.
    fn open_owner(&self, process: usize, name: &str) -> usize {
        let count = self.owners.len();
        for after in 0..count {
            let at = count.saturating_sub(after).saturating_sub(1);
            if let Some(owner) = self.owners.get(at) {
                if owner.last.is_none() && owner.process == process && owner.name == name {
                    return at;
                }
            }
        }
        count
    }

    /// In the child of a fork the mutexes have owners as in the parent, and the once controls are busy as there: the thread that forked is its
    /// replica.
    pub(crate) fn copy_owners(
        &mut self,
        parent: usize,
        parent_process: usize,
        replica: usize,
        process: usize,
    ) {
        for at in 0..self.owners.len() {
            if let Some(owner) = self.owners.get(at).copied() {
                let is_open = owner.last.is_none() && owner.process == parent_process;
                let is_replica = owner.thread == Some(parent);
                if is_open && is_replica && owner.is_control {
                    self.begin_once(replica, process, owner.name);
                } else if is_open && is_replica {
                    self.acquire(replica, process, owner.name);
                } else if is_open {
                    self.add_owner(Owner::new(process, owner.name, owner.is_control));
                }
            }
        }
    }

    // ---- calls and waits

    /// The thread with this index makes a step, so its call or its wait is over.
    pub(crate) fn end_wait(&mut self, index: usize, step: &Step<'a>) {
        if self.leave_call(index) {
            return;
        }
        let call = step.word(0);
        if call == "pthread_mutex_lock" || call == "pthread_once" {
            self.wait_for_owner(index, step.word(1));
        } else if step.is_in_call() {
            if let Some((_, mutex)) = step.condition_wait() {
                self.wait_for_owner(index, mutex);
            }
        }
    }

    // Ends the call in which the thread is suspended, by its end at the latest. It returns false if there is none.
    fn leave_call(&mut self, index: usize) -> bool {
        let row = self.rows.len();
        if let Some(thread) = self.threads.get_mut(index) {
            if thread.is_in_call {
                let first = thread.since;
                let last = thread.last.unwrap_or(row);
                thread.is_in_call = false;
                thread.since = row;
                self.add_wait(index, first, last);
                return true;
            }
        }
        false
    }

    // Adds the waits of a thread for a mutex or a once control of its process with this name: since it is where it is, the rows in which another
    // thread owns the mutex, or the control is busy; after the last step also those in which it owns the mutex itself.
    fn wait_for_owner(&mut self, index: usize, name: &str) {
        let Some(thread) = self.threads.get(index) else {
            return;
        };
        let process = thread.id.process;
        let since = thread.since;
        let end = self.rows.len();
        for at in self.first_owner_after(process, name, since)..self.owners.len() {
            if let Some(owner) = self.owners.get(at) {
                let first = owner.first.max(since);
                let last = owner.last.unwrap_or(end).min(end);
                if owner.process == process && owner.name == name {
                    self.add_wait(index, first, last);
                }
            }
        }
    }

    // The thread with this index waits between these rows.
    fn add_wait(&mut self, index: usize, first: usize, last: usize) {
        if let Some(thread) = self.threads.get_mut(index) {
            if first < last {
                let wait = Wait {
                    thread: index,
                    after: thread.waited,
                    first,
                    last,
                };
                thread.waited = last;
                let is_added = self.waits.push(wait).is_ok();
                self.note_memory(is_added);
            }
        }
    }

    // The index of an owner before which no owner has this mutex or once control after this row.
    fn first_owner_after(&self, process: usize, name: &str, row: usize) -> usize {
        let count = self.owners.len();
        for after in 0..count {
            let index = count.saturating_sub(after);
            if let Some(owner) = self.owners.get(index.saturating_sub(1)) {
                let last = owner.last.unwrap_or(usize::MAX);
                if last <= row && owner.process == process && owner.name == name {
                    return index;
                }
            }
        }
        0
    }

    /// A step of the thread with the index `by` unblocks the thread with this index, which waits on a condition variable.
    pub(crate) fn unblock(&mut self, by: usize, index: Option<usize>) {
        if let Some(index) = index {
            self.leave_call(index);
        }
        self.add_arrow(Kind::Signal, by, index);
    }

    /// A step of the thread with the index `by` unblocks all threads of its process that wait on a condition variable.
    pub(crate) fn unblock_all(&mut self, by: usize, process: usize, condition: &str) {
        for index in 0..self.threads.len() {
            if self.is_in_wait(index, process, condition) {
                self.unblock(by, Some(index));
            }
        }
    }

    fn is_in_wait(&self, index: usize, process: usize, condition: &str) -> bool {
        let Some(thread) = self.threads.get(index) else {
            return false;
        };
        let Some(step) = thread.at else {
            return false;
        };
        let Some((waits_on, _)) = step.condition_wait() else {
            return false;
        };
        thread.is_in_call && thread.id.process == process && waits_on == condition
    }

    /// After the last step: the threads that are suspended in a call are so up to the end.
    pub(crate) fn add_open_calls(&mut self) {
        for index in 0..self.threads.len() {
            self.leave_call(index);
        }
    }
}
