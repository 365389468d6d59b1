// The two public operations: one step, and a run of a budget. A step is the run of budget 1: each accepted step spends at least
// one cycle, and a single place that steps is what the compiler makes fast.
ghost use Rattle.std.specs.Prelude.{◌≡◌, None, Some, ◌%◌, ◌≤◌};
ghost use Rattle.machine.specs.Answers.{Gives};
ghost use Rattle.machine.specs.Step.{step_of};
ghost use Rattle.machine.specs.Run.{largest_budget, run_from, run_of};
ghost use Rattle.machine.specs.Told.{told_step, told_run};

use crate::{Cpu, LARGEST_BUDGET, MEMORY_SIZE, Ran, Taken};
use arith::Refusal;

// A run that is refused before its first step.
fn refused(refusal: Refusal, cpu: Cpu) -> Ran
    ensures { result ≡ record { refusal = Some refusal; spent = 0; steps = 0; cpu = cpu } }
{
    Ran {
        refusal: Some(refusal),
        spent: 0,
        steps: 0,
        cpu,
    }
}

// Steps while the cycles spent are below the budget.
fn run_from(start: Cpu, mem: &mut [u8; MEMORY_SIZE], budget: u32) -> Ran
    requires f_value { start.f % 16 ≡ 0 }
    requires budget_le_largest_budget { budget ≤ largest_budget }
    ensures { Gives (run_from budget budget 0 0 start mem.old) (told_run result) mem.new }
{
    let mut cpu = start;
    let mut spent: u32 = 0;
    let mut steps: u32 = 0;
    while spent < budget {
        let next = cpu.due_step(mem);
        match next.refusal {
            Some(refusal) => {
                return Ran {
                    refusal: Some(refusal),
                    spent,
                    steps,
                    cpu,
                };
            }
            None => {
                cpu = next.cpu;
                spent += u32::from(next.cycles);
                steps += 1;
            }
        }
    }
    Ran {
        refusal: None,
        spent,
        steps,
        cpu,
    }
}

// One step. Refusals: 1 memory length, 2 low bits of F, 3 Stopped, 4 undefined opcode; a refused step changes nothing.
pub fn step(cpu: Cpu, mem: &mut [u8]) -> Result<Taken, Refusal>
    ensures { Gives (step_of cpu mem.old) (told_step cpu result) mem.new }
{
    let Some(memory) = mem.as_mut_array::<MEMORY_SIZE>() else {
        return Err(Refusal::MemoryLength);
    };
    if cpu.f % 16 != 0 {
        return Err(Refusal::LowFlags);
    }
    let ran = run_from(cpu, memory, 1);
    match ran.refusal {
        Some(refusal) => Err(refusal),
        // Stays: a step has few cycles, so the cast loses none; `u8::try_from` is no plainer, as its refusal would stand for nothing.
        None => Ok(Taken {
            cycles: ran.spent as u8,
            cpu: ran.cpu,
        }),
    }
}

// Steps until the budget is met. Refusals: 1 memory length, 2 low bits of F, 5 a budget above 1,048,576; 3 or 4 where a step
// is refused, and then the steps before it stay.
pub fn run(cpu: Cpu, mem: &mut [u8], budget: u32) -> Ran
    ensures { Gives (run_of budget cpu mem.old) (told_run result) mem.new }
{
    let Some(memory) = mem.as_mut_array::<MEMORY_SIZE>() else {
        return refused(Refusal::MemoryLength, cpu);
    };
    if cpu.f % 16 != 0 {
        return refused(Refusal::LowFlags, cpu);
    }
    if LARGEST_BUDGET < budget {
        return refused(Refusal::Budget, cpu);
    }
    run_from(cpu, memory, budget)
}
