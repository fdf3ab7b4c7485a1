ghost use Rattle.std.specs.Prelude.{◌≡◌, ◌%◌, ◌≤◌, [], map, slice_index, IfOk};
ghost use Rattle.script.specs.Generated.{draw_of, drawn_op, drawn_turns, draws, made_plan, made_turn, next_state, sizes_behind};
ghost use Rattle.script.specs.Plan.{plan_of, turn_of};
ghost use Rattle.script.specs.Rules.{IsPlan};

use crate::limits::MOST_CALLS_1;
use crate::operation::Op;
use crate::tree::{Header, Phase, Script, Step};
use std::alloc::Global;
use umem_base::{NoMemory, Sequence, Stack};

/// What a state is multiplied by for the next one.
pub const MULTIPLIER: u64 = 6_364_136_223_846_793_005;

/// What is added for the next state.
pub const INCREMENT: u64 = 1_442_695_040_888_963_407;

/// The slots of generated scripts, from slot 1 on.
pub const MADE_SLOTS: u64 = 64;

/// The sizes of generated scripts, from size 1 on.
pub const MADE_SIZES: u64 = 512;

/// A script of version 1 that is drawn from a seed: one CPU, one thread and one phase of `ops` calls, each
/// of which allocates where its slot is empty, and else frees. The generator is this project's own.
pub fn make_script(alloc: Global, seed: u64, ops: u32) -> Result<Script, NoMemory>
    requires { ops ≤ MOST_CALLS_1 }
    ensures plan { IfOk result (λ script. plan_of script ≡ made_plan seed ops) }
    ensures rules { IfOk result (λ script. IsPlan (plan_of script)) }
{
    let steps = make_steps(alloc, seed, ops)?;
    let mut phases = Vec::new(alloc);
    phases.push(Phase::from_vec(steps))?;
    let header = Header {
        version: 1,
        cpus: 1,
        threads: 1,
        caches: Sequence::new(Vec::new(alloc)),
    };
    Ok(Script {
        header,
        phases: Sequence::new(phases),
    })
}

fn make_steps(alloc: Global, seed: u64, ops: u32) -> Result<Vec<Step>, NoMemory>
    ensures { IfOk result (λ steps. map turn_of steps.items ≡ drawn_turns [] (draws seed ops)) }
{
    let mut state = seed;
    let mut sizes = [0; MADE_SLOTS as usize];
    let mut steps = Vec::new(alloc);
    for _made in 0..ops {
        state = next_state(state);
        let op = take_draw(&mut sizes, draw_of(state));
        steps.push(make_step(alloc, op))?;
    }
    Ok(steps)
}

fn make_step(alloc: Global, op: Op) -> Step
    ensures { turn_of result ≡ made_turn op }
{
    Step {
        thread: 0,
        op,
        stack: Stack::from_vec(Vec::new(alloc)),
    }
}

// The operation of a draw. The sizes are those of the buffers in the slots, 0 where one is empty.
fn take_draw(sizes: &mut [u32; 64], draw: u64) -> Op
    ensures op { result ≡ drawn_op (slice_index sizes.old (draw % MADE_SLOTS)) draw }
    ensures sizes { sizes.new ≡ sizes_behind sizes.old draw }
{
    let place = (draw % MADE_SLOTS) as usize;
    let slot = place as u32 + 1;
    let held = sizes[place];
    if held == 0 {
        let size = (draw / MADE_SLOTS % MADE_SIZES) as u32 + 1;
        sizes[place] = size;
        Op::Alloc { slot, size }
    } else {
        sizes[place] = 0;
        Op::Free { slot, size: held }
    }
}

// The state behind a state.
pub(crate) fn next_state(state: u64) -> u64
    ensures { result ≡ next_state state }
{
    state.wrapping_mul(MULTIPLIER).wrapping_add(INCREMENT)
}

// What is drawn in a state.
pub(crate) fn draw_of(state: u64) -> u64
    ensures { result ≡ draw_of state }
{
    state >> 33
}
