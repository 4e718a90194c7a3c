//! The sites of a program with the numbers that they have in a program with more in it.

ghost use Rattle.std.specs.Prelude.{◌≡◌, ◌<◌, ◌^◌, ◌+◌, ◌++◌, OnOk, map, option_map};
ghost use Rattle.diff_beside.specs.Moving.{IsSmall, IsSmallMemory, IsSmallOperand, cell_of_return, moved, moved_operand, moved_site, shift_of};

use crate::moving::{Moving, number_of};
use crate::small::checked;
use diagram_program::geometry::{PLACES, Place};
use diagram_program::{Cell, Operand, Program, Site};
use std::alloc::AllocError;

/// What a contact reads.
fn moved_operand(moving: Moving<'_>, operand: Operand) -> Operand
    requires { IsSmallOperand operand }
    ensures { result ≡ moved_operand (shift_of moving.entry) operand }
{
    match operand {
        Operand::Var(var) => Operand::Var(number_of(moving.vars, var)),
        Operand::Output(inst) => Operand::Output(moving.instances + inst),
    }
}

/// The number of a memory.
fn moved_memory(before: usize, memory: Option<usize>) -> Option<usize>
    requires few { before < 2 ^ 32 }
    requires small { IsSmallMemory memory }
    ensures { result ≡ option_map (λ n. before + n) memory }
{
    match memory {
        Some(number) => Some(before + number),
        None => None,
    }
}

/// What a return is.
fn cell_of_return(past: Option<usize>) -> Cell
    ensures { result ≡ cell_of_return past }
{
    match past {
        Some(target) => Cell::Jump { target },
        None => Cell::Return,
    }
}

/// A cell with the numbers that it has there.
fn moved(moving: Moving<'_>, cell: Cell) -> Cell
    requires { IsSmall cell }
    ensures { result ≡ moved (shift_of moving.entry) cell }
{
    match cell {
        Cell::Empty => Cell::Empty,
        Cell::Wire => Cell::Wire,
        Cell::Contact {
            mode,
            operand,
            memory,
        } => Cell::Contact {
            mode,
            operand: moved_operand(moving, operand),
            memory: moved_memory(moving.memories, memory),
        },
        Cell::Coil { mode, var, memory } => Cell::Coil {
            mode,
            var: number_of(moving.vars, var),
            memory: moved_memory(moving.memories, memory),
        },
        Cell::Block { inst } => Cell::Block {
            inst: moving.instances + inst,
        },
        Cell::Lower { inst, linked } => Cell::Lower {
            inst: moving.instances + inst,
            linked,
        },
        Cell::Jump { target } => Cell::Jump {
            target: moving.rungs + target,
        },
        Cell::Return => cell_of_return(moving.past),
    }
}

/// A site with the numbers that its cell has there.
fn moved_site(moving: Moving<'_>, site: Site) -> Site
    requires { IsSmall site.cell }
    ensures { result ≡ moved_site (shift_of moving.entry) site }
{
    Site {
        cell: moved(moving, site.cell),
        right_link: site.right_link,
        joint: site.joint,
        vertical: site.vertical,
    }
}

/// Adds the sites of a program with the numbers that they have there.
pub(crate) fn add_sites(
    sites: &mut Vec<Site>,
    program: &Program,
    moving: Moving<'_>,
) -> Result<(), AllocError>
    ensures { OnOk result (sites.new.items ≡ sites.old.items ++ map (moved_site (shift_of moving.entry)) program.now.sites) }
{
    checked(program);
    for number in 0..PLACES * program.rungs() {
        let site = program.site(Place::from_number(number));
        sites.push(moved_site(moving, site))?;
    }
    Ok(())
}
