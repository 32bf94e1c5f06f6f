//! A plan is read from its text.

ghost use Rattle.std.specs.Prelude.{◌≡◌, ◌≤◌, ◌<◌, ◌+◌, ◌++◌, ◌∷◌, [], ℕ, List, length, OnOk, OnErr};
ghost use Rattle.std.specs.List.{All};
ghost use Rattle.step_plan.specs.Lines.{IsInBounds};
ghost use Rattle.step_plan.specs.Plan.{ReadsPlan, ReadsLine};

use crate::line::read_line;
use std::alloc::Global;
use std::marker::Model;

/// A line: up to so many steps of a connection, from 1 on; 0 is the daemon.
#[derive(Clone, Copy, Debug, PartialEq, Eq)]
pub struct StepLine {
    pub connection: usize,
    pub steps: u32,
}

/// A plan for so many scripts.
#[derive(Debug, Drop)]
pub struct Plan {
    scripts: usize,
    lines: Vec<StepLine>,
}

impl Model for Plan {
    ghost use Rattle.std.specs.List.{All};
    ghost use Rattle.step_plan.specs.Lines.{Lines, IsInBounds};

    ghost Value = { Lines };

    ghost view = { λ p. record { scripts = p.scripts; lines = p.lines.items } };

    ghost invariant = { λ p. All (IsInBounds p.scripts) p.lines.items };
}

/// Why a plan isn't read.
#[derive(Clone, Copy, Debug, PartialEq, Eq)]
pub enum PlanError {
    /// The first malformed line, counted from 1 over all lines.
    Malformed { line: u64 },
    /// Want of memory.
    Memory,
}

impl Plan {
    /// The number of scripts that the plan is for.
    pub fn scripts(&self) -> usize
        ensures { result ≡ self.now.scripts }
    {
        self.scripts
    }

    /// The lines, in order.
    pub fn lines(&self) -> &[StepLine]
        ensures lines { result.now ≡ self.now.lines }
        ensures bounds { All (IsInBounds self.now.scripts) result.now }
    {
        self.lines.as_slice()
    }
}

/// Puts a line behind those found, if it isn't empty.
fn put_line(
    found: &mut Vec<StepLine>,
    scripts: usize,
    number: u64,
    line: &[u8],
) -> Result<(), PlanError>
    requires { All (IsInBounds scripts) found.old.items }
    ensures reads { ReadsLine scripts number line.now found.old.items found.new.items result }
    ensures bounds { All (IsInBounds scripts) found.new.items }
{
    if line.is_empty() {
        return Ok(());
    }
    let Some(step) = read_line(scripts, line) else {
        return Err(PlanError::Malformed { line: number });
    };
    match found.push(step) {
        Ok(_) => Ok(()),
        Err(_error) => Err(PlanError::Memory),
    }
}

/// Reads the plan for so many scripts from its text.
pub fn read_plan(alloc: Global, text: &[u8], scripts: usize) -> Result<Plan, PlanError>
    ensures { ReadsPlan scripts text.now result }
{
    let mut found = Vec::new(alloc);
    let mut number = 1;
    let mut from = 0;
    for (i, b) in text.iter().enumerate() {
        if *b == b'\n' {
            put_line(&mut found, scripts, number, &text[from..i])?;
            number += 1;
            from = i + 1;
        }
    }
    put_line(&mut found, scripts, number, &text[from..])?;
    Ok(Plan {
        scripts,
        lines: found,
    })
}
