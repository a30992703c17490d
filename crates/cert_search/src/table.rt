//! The deques of all workers, before they start.
ghost use Rattle.std.specs.Prelude.{◌≡◌, ◌<◌, ◌≤◌, length, IfOk, ◌-◌, vec_len};
ghost use Rattle.cert_search.specs.Dealing.{EachGetsMarks, GetsMarks, IsFilledTo};

use crate::own::Own;
use crate::steal_handle::StealHandle;
use std::alloc::{AllocError, Global};

/// A deque for each worker, with its claims. None was taken.
#[derive(Drop)]
pub struct Table {
    pub(crate) workers: usize,
    pub(crate) owns: Vec<Own>,
    ghost some: { 0 < workers },
    ghost few: { workers ≤ 16 },
    ghost count: { length owns.items ≡ workers },
}

impl Table {
    ghost use Rattle.cert_search.specs.Dealing.{AreOut, EachRow, IsFilled, IsRow, LendsOthers, SameDeques};

    /// Deals the claims.
    pub(crate) fn new(alloc: Global, claims: usize, workers: usize) -> Result<Table, AllocError>
        requires some { 0 < workers }
        requires few { workers ≤ 16 }
        ensures workers { IfOk result (λ t. t.workers ≡ workers) }
        ensures filled { IfOk result (λ t. IsFilled claims workers t.owns.items) }
        ensures none { IfOk result (λ t. AreOut workers 0 t.owns.items) }
    {
        let mut owns = empty_deques(alloc, claims.div_ceil(workers), workers)?;
        deal_out(&mut owns, claims)?;
        close_all(&mut owns, workers)?;
        Ok(Table { workers, owns })
    }

    // Lends a worker views of all other deques, beginning after it and going round.
    fn row(&mut self, alloc: Global, which: usize) -> Result<Vec<StealHandle>, AllocError>
        requires { which < self.old.workers }
        ensures row { IfOk result (λ row. IsRow self.old.workers self.old.owns.items which row.items) }
        ensures workers { self.new.workers ≡ self.old.workers }
        ensures same { SameDeques self.old.owns.items self.new.owns.items }
        ensures lent { IfOk result (λ _. LendsOthers self.old.workers which self.old.owns.items self.new.owns.items) }
    {
        let mut row = Vec::new(alloc);
        for k in 1..self.workers {
            let own = &mut self.owns[(which + k) % self.workers];
            row.push(own.steal_handle()?)?;
        }
        Ok(row)
    }

    /// Lends each worker its views.
    pub(crate) fn rows(&mut self, alloc: Global) -> Result<Vec<Vec<StealHandle>>, AllocError>
        requires none { AreOut self.old.workers 0 self.old.owns.items }
        ensures count { IfOk result (λ rows. vec_len rows ≡ self.old.workers) }
        ensures rows { IfOk result (λ rows. EachRow self.old.workers self.old.owns.items rows.items) }
        ensures workers { self.new.workers ≡ self.old.workers }
        ensures same { SameDeques self.old.owns.items self.new.owns.items }
        ensures lent { IfOk result (λ _. AreOut self.old.workers (self.old.workers - 1) self.new.owns.items) }
    {
        let mut rows = Vec::new(alloc);
        for which in 0..self.workers {
            rows.push(self.row(alloc, which)?)?;
        }
        Ok(rows)
    }
}

// Makes an empty deque for each worker.
fn empty_deques(alloc: Global, capacity: usize, workers: usize) -> Result<Vec<Own>, AllocError>
    ensures { IfOk result (λ owns. IsFilledTo workers 0 owns.items) }
{
    let mut owns = Vec::new(alloc);
    for which in 0..workers {
        owns.push(Own::new(alloc, which, capacity)?)?;
    }
    Ok(owns)
}

// Deals claim c to the deque of worker `c mod workers`.
fn deal_out(owns: &mut Vec<Own>, claims: usize) -> Result<(), AllocError>
    requires some { 0 < length owns.old.items }
    requires empty { IsFilledTo (length owns.old.items) 0 owns.old.items }
    ensures { IfOk result (λ _. IsFilledTo (length owns.old.items) claims owns.new.items) }
{
    for claim in 0..claims {
        let which = claim % owns.len();
        owns[which].deal(claim)?;
    }
    Ok(())
}

// Adds an end mark for each worker to each deque, after its claims.
fn close_all(owns: &mut Vec<Own>, workers: usize) -> Result<(), AllocError>
    ensures { IfOk result (λ _. EachGetsMarks workers owns.old.items owns.new.items) }
{
    for which in 0..owns.len() {
        let own = &mut owns[which];
        close_for(own, workers)?;
    }
    Ok(())
}

// Adds an end mark for each of `workers` workers.
fn close_for(own: &mut Own, workers: usize) -> Result<(), AllocError>
    ensures { IfOk result (λ _. GetsMarks workers own.old own.new) }
{
    for _ in 0..workers {
        own.close()?;
    }
    Ok(())
}
