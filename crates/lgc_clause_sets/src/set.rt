// Reduced sets of clauses.
ghost use Rattle.std.specs.Prelude.{◌≡◌, ◌≤◌, ◌∷◌, [], IfOk, OnOk, OnErr, filter, map, not, ◌&&◌};
ghost use Rattle.std.specs.List.{list_any};
ghost use Rattle.std.specs.Vec.{vec_len, vec_capacity};
ghost use Rattle.lgc_clause_sets.specs.AtomClauses as clauses;
ghost use Rattle.lgc_clause_sets.specs.Reductions.{IsReduction, Reduces, ReducesBoth};

use crate::ClauseRow;
use std::alloc::{AllocError, Global};
use std::marker::Model;

/// Clauses over a list of atoms, seen as their list. None of them is always true, and no two of them are such that one subsumes the other.
#[derive(Debug, Drop)]
pub struct ClauseSet<const N: usize> {
    rows: Vec<ClauseRow<N>>,
}

impl<const N: usize> Model for ClauseSet<N> {
    ghost use Rattle.std.specs.Prelude.{List, ℕ};

    ghost Value = { List (List (List ℕ)) };

    ghost view = { λ set. set.rows.items };
}

impl<const N: usize> ClauseSet<N> {
    /// No clauses, which no clauses are reduced to. It takes no memory; `alloc` is kept for later ones.
    pub fn new(alloc: Global) -> Self
        ensures { result ≡ [] }
    {
        ClauseSet {
            rows: Vec::new(alloc),
        }
    }

    /// The set of one clause, or of none if the clause is always true.
    pub fn of_row(alloc: Global, row: ClauseRow<N>) -> Result<Self, AllocError>
        ensures { IfOk result (IsReduction N (row.entry ∷ [])) }
    {
        let mut set = ClauseSet::new(alloc);
        set.add(row)?;
        Ok(set)
    }

    /// The clauses, in the order in which they were added.
    pub fn rows(&self) -> &[ClauseRow<N>]
        ensures { result.now ≡ self.now }
    {
        self.rows.as_slice()
    }

    /// The clauses, given away.
    pub fn into_rows(self) -> Vec<ClauseRow<N>>
        ensures { result.items ≡ self.entry }
    {
        self.rows
    }

    /// Adds a clause, unless it is always true or one that is kept subsumes it. Those that it subsumes are dropped. On want of memory the set is
    /// as it was, and the clause is dropped.
    pub fn add(&mut self, row: ClauseRow<N>) -> Result<(), AllocError>
        ensures ok { OnOk result (Reduces N (row.entry ∷ []) self.old self.new) }
        ensures err { OnErr result (self.new ≡ self.old) }
    {
        if self.needs(&row) {
            self.rows.reserve(1)?;
            take_out_subsumed(&mut self.rows, &row);
            self.rows.push_reserved(row);
        }
        Ok(())
    }

    /// The joins of each clause with each of another set, reduced.
    pub fn products(&self, alloc: Global, others: &Self) -> Result<Self, AllocError>
        ensures { IfOk result (IsReduction N (clauses.products N self.now others.now)) }
    {
        let mut kept = ClauseSet::new(alloc);
        for row in &self.rows {
            kept.add_joined(alloc, row, others.rows())?;
        }
        Ok(kept)
    }

    /// The clauses of both sets, reduced.
    pub fn union(self, others: Self) -> Result<Self, AllocError>
        ensures { IfOk result (ReducesBoth N self.entry others.entry) }
    {
        if self.rows().is_empty() {
            return Ok(others);
        }
        let mut both = self;
        both.add_each(others)?;
        Ok(both)
    }

    // Adds each clause of another set.
    fn add_each(&mut self, others: Self) -> Result<(), AllocError>
        ensures { OnOk result (Reduces N others.entry self.old self.new) }
    {
        for row in others.into_rows() {
            self.add(row)?;
        }
        Ok(())
    }

    // Whether a clause isn't always true, and none that is kept subsumes it.
    fn needs(&self, row: &ClauseRow<N>) -> bool
        ensures { result ≡ (not (clauses.has_full N row.now) && not (list_any (λ kept. clauses.subsumes kept row.now) self.now)) }
    {
        !row.has_full() && !some_subsumes(&self.rows, row)
    }

    // Adds the joins of a clause with each of the others.
    fn add_joined(
        &mut self,
        alloc: Global,
        row: &ClauseRow<N>,
        others: &[ClauseRow<N>],
    ) -> Result<(), AllocError>
        ensures { OnOk result (Reduces N (map (clauses.joined N row.now) others.now) self.old self.new) }
    {
        for other in others {
            self.add(row.joined(alloc, other)?)?;
        }
        Ok(())
    }
}

// Whether some clause subsumes another one.
fn some_subsumes<const N: usize>(rows: &[ClauseRow<N>], row: &ClauseRow<N>) -> bool
    ensures { result ≡ list_any (λ kept. clauses.subsumes kept row.now) rows.now }
{
    for kept in rows {
        if kept.subsumes(row) {
            return true;
        }
    }
    false
}

// Takes out the clauses that another one subsumes.
fn take_out_subsumed<const N: usize>(rows: &mut Vec<ClauseRow<N>>, row: &ClauseRow<N>)
    ensures items { rows.new.items ≡ filter (λ kept. not (clauses.subsumes row.now kept)) rows.old.items }
    ensures len { vec_len rows.new ≤ vec_len rows.old }
    ensures capacity { vec_capacity rows.new ≡ vec_capacity rows.old }
{
    rows.retain(
        |kept|
            ensures tells { result ≡ not (clauses.subsumes row.entry.now kept.now) }
            ensures same { row.exit ≡ row.entry }
        { !row.subsumes(kept) },
    );
}
