//! Gates: when a worker may go on.

ghost use Rattle.std.specs.Prelude.{◌≡◌, ◌∷◌, [], IfOk, IfErr, true, false};
ghost use Rattle.semantics.specs.Questions.{Get};
ghost use Rattle.ids.specs.declared.refusal.Refusal.TheVariants.{NoMemory};
ghost use Rattle.peer_sync.specs.document.declared.question.Question.TheVariants.{Values as AskValues};

use ids::Refusal;
use peer_sync::{Client, EngineName, Expr, ExprStep as Hop, Key, Question, Reading};
use std::alloc::{AllocError, Global};

/// Says whether a worker may submit its next command.
pub trait Gate {
    /// Whether the client may submit the command that assigns this number. Meanwhile the client may have read, but has not submitted or
    /// polled anything.
    ///
    /// # Errors
    /// `NoMemory` if allocation fails; `NoReading` if the engine gave no reading.
    fn may<N: EngineName>(
        &mut self,
        alloc: Global,
        client: &mut Client<N>,
        number: u32,
    ) -> Result<bool, Refusal>
        ensures { client.new ≡ record client.old { seen = client.new.seen; read = client.new.read; reads = client.new.reads } };
}

/// A gate before number 1: it opens once the client sees a value at the key, if the gate has a key. All other numbers pass.
#[derive(Drop)]
pub struct Meeting {
    pub key: Option<Key>,
}

impl Gate for Meeting {
    fn may<N: EngineName>(
        &mut self,
        alloc: Global,
        client: &mut Client<N>,
        number: u32,
    ) -> Result<bool, Refusal> {
        match &self.key {
            Some(key) if number == 1 => sees_values(alloc, client, key),
            _ => Ok(true),
        }
    }
}

/// Whether the client sees a value at the key.
fn sees_values<N: EngineName>(
    alloc: Global,
    client: &mut Client<N>,
    key: &Key,
) -> Result<bool, Refusal>
    ensures { client.new ≡ record client.old { seen = client.new.seen; read = client.new.read; reads = client.new.reads } }
{
    match client.ask(alloc, &values_at(alloc, key)?)? {
        Reading::Values(values) => Ok(!values.is_empty()),
        _ => Ok(false),
    }
}

/// The question for the values at a key of the document.
pub(crate) fn values_at(alloc: Global, key: &Key) -> Result<Question, AllocError>
    ensures { IfOk result (λ q. q ≡ AskValues (Get key.now ∷ [])) }
{
    Ok(Question::Values(at(alloc, key)?))
}

/// The expression of a key of the document.
pub(crate) fn at(alloc: Global, key: &Key) -> Result<Expr, AllocError>
    ensures { IfOk result (λ e. e ≡ Get key.now ∷ []) }
{
    let step = Hop::Get(key.clone()?);
    Ok(Expr::new(vec![in alloc; step]?))
}
