//! What is played, and how it ends.

ghost use Rattle.std.specs.Prelude.{◌≡◌, ◌<◌, ◌≤◌, ◌*◌, ◌↔◌, IfOk, IfErr, Err, true, false};
ghost use Rattle.ids.specs.declared.refusal.Refusal.TheVariants.{BadConfig, NoMemory};
ghost use Rattle.bench.specs.declared.plan.Stop.TheVariants.{Refused as StopRefused};
ghost use Rattle.bench.specs.Plans.{is_plan};

use ids::{MOST_QUEUE, Refusal};
use std::alloc::AllocError;

/// How many turns a waiting loop may find nothing new before it gives up.
pub const MOST_TURNS: u32 = 10_000_000;

/// How many engines there are and how many clients of each write, both from 1 to 16; how many commands each client submits, from 1 to
/// 4,096; and the capacity of each engine's queue, from 1 to 65,536.
#[derive(Clone, Copy, Debug, PartialEq, Eq)]
pub struct Plan {
    replicas: u32,
    writers: u32,
    ops: u32,
    queue: u32,
    pub ghost good: { is_plan replicas writers ops queue ≡ true },
}

impl Plan {
    /// This many engines, writers of each engine, operations of each writer, and slots of each queue.
    ///
    /// # Errors
    /// `BadConfig` if a number is outside its limits.
    pub fn new(replicas: u32, writers: u32, ops: u32, queue: u32) -> Result<Plan, Refusal>
        ensures plan { IfOk result (λ p. (p.replicas ≡ replicas) × (p.writers ≡ writers) × (p.ops ≡ ops) × (p.queue ≡ queue)) }
        ensures bad { (result ≡ Err BadConfig) ↔ (is_plan replicas writers ops queue ≡ false) }
        ensures err { IfErr result (λ why. why ≡ BadConfig) }
    {
        if !(1..=16).contains(&replicas)
            || !(1..=16).contains(&writers)
            || !(1..=4_096).contains(&ops)
            || !(1..=MOST_QUEUE).contains(&queue)
        {
            return Err(Refusal::BadConfig);
        }
        Ok(Plan {
            replicas,
            writers,
            ops,
            queue,
        })
    }

    pub fn replicas(&self) -> u32
        ensures { result ≡ self.now.replicas }
    {
        self.replicas
    }

    pub fn writers(&self) -> u32
        ensures { (result ≡ self.now.writers) × (0 < result) }
    {
        self.writers
    }

    pub fn ops(&self) -> u32
        ensures { result ≡ self.now.ops }
    {
        self.ops
    }

    pub fn queue(&self) -> u32
        ensures { result ≡ self.now.queue }
    {
        self.queue
    }

    /// How many operations the clients of one engine submit.
    pub fn operations_each(&self) -> u32
        ensures { (result ≡ self.now.writers * self.now.ops) × (result ≤ 65536) }
    {
        self.writers * self.ops
    }

    /// How many operations there are in all.
    pub fn operations(&self) -> u32
        ensures { result ≡ self.now.replicas * (self.now.writers * self.now.ops) }
    {
        self.replicas * self.operations_each()
    }
}

/// The result of a bench.
#[derive(Clone, Copy, Debug, PartialEq, Eq)]
pub enum Verdict {
    /// Each value was read back, and all engines show the same, in a history of this many operations, as many as were submitted.
    Agree(u32),
    /// A value wasn't read back, or an engine shows something else or has a history of another length.
    Differ,
}

/// Why a bench ended early.
#[derive(Clone, Copy, Debug, PartialEq, Eq)]
pub enum Stop {
    /// A waiting loop found nothing new for `MOST_TURNS` turns.
    TurnLimit,
    /// A call or a command was refused.
    Refused(Refusal),
}

impl From<Refusal> for Stop {
    ghost from_gives = { λ why stop. stop ≡ StopRefused why };

    fn from(refusal: Refusal) -> Stop {
        Stop::Refused(refusal)
    }
}

impl From<AllocError> for Stop {
    ghost from_gives = { λ _ stop. stop ≡ StopRefused NoMemory };

    fn from(_refused: AllocError) -> Stop {
        Stop::Refused(Refusal::NoMemory)
    }
}
