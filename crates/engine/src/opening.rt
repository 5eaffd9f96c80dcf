//! Opening an engine.

ghost use Rattle.std.specs.Prelude.{◌≡◌, ◌+◌, ◌<◌, ◌≤◌, ◌⊎◌, ◌↔◌, [], length, true, Err, IfOk, IfErr, IsFalse, vec_capacity};
ghost use Rattle.std.specs.List.{All};
ghost use Rattle.std.specs.Coded.{codes};
ghost use Rattle.semantics.specs.Codes.{coded_element};
ghost use Rattle.std.specs.Arc.{arc_value};
ghost use Rattle.crossbeam_queue.specs.Passes.{ruled_capacity, view};
ghost use Rattle.command.specs.InOrder.{taker_hand};
ghost use Rattle.ids.specs.declared.refusal.Refusal.TheVariants.{BadConfig, NoMemory, NoReaderPlace};
ghost use Rattle.ids.specs.Configurations.{are_members, is_within_limits};
ghost use Rattle.ids.specs.Members.{in_order};
ghost use Rattle.semantics.specs.World.{opened_engine};
ghost use Rattle.replica.specs.Replicas.{replica_of};
ghost use Rattle.command.specs.published.Rules.{IsQueueOf};
ghost use Rattle.engine.specs.Clients.{AreNumbered, IsNewClient};
ghost use Rattle.engine.specs.WriterSteps.{new_writer};

use crate::client::Client;
use crate::writer::Writer;
use command::{EngineName, Handled, Opened, Queue, QueueName, ReaderToken, Taker, Unnamed};
use ids::{Config, Refusal, ReplicaId};
use replica::{Document, Replica};
use std::alloc::{AllocError, Global};
use std::sync::Wait;

/// The parts of a new engine, which has no name yet: `open` takes a type that names it.
#[derive(Drop)]
pub struct Parts {
    config: Config,
    opened: Opened,
    own: ReplicaId,
    replica: Replica,
    first: Document,
    second: Document,
    pub ghost good: { is_within_limits config ≡ true },
    pub ghost numbered: { (own ≡ config.own) × (replica.own ≡ config.own) },
    pub ghost members: { (replica.document.members ≡ in_order config.members) × (first.members ≡ in_order config.members)
        × (second.members ≡ in_order config.members) },
    pub ghost empty: { (replica.document.entries ≡ []) × (first.entries ≡ [])
        × (second.entries ≡ []) } by { Prim.hlevel (codes, coded_element) },
    pub ghost new: { replica_of replica ≡ (opened_engine config).replica } by { Prim.hlevel (codes, coded_element) },
}

/// Makes the parts of an engine with this configuration: an empty replica, and two empty documents for its readers.
///
/// # Errors
/// `BadConfig` if a number is outside its limits, a member is listed twice or the own number isn't a member; else `NoMemory` if allocation
/// fails.
pub fn prepare(alloc: Global, config: Config) -> Result<Parts, Refusal>
    ensures config { IfOk result (λ p. p.config ≡ config) }
    ensures bad_config { (result ≡ Err BadConfig) ↔ IsFalse (is_within_limits config) }
    ensures err { IfErr result (λ why. (why ≡ BadConfig) ⊎ (why ≡ NoMemory)) }
{
    config.check()?;
    let own = own_number(&config);
    let replica = Replica::new(alloc, config.own, &config.members)?;
    let (first, second) = two_documents(alloc, &config.members)?;
    Ok(Parts {
        config,
        opened: Opened::new(),
        own,
        replica,
        first,
        second,
    })
}

/// The own replica number of a configuration within its limits.
fn own_number(config: &Config) -> ReplicaId
    requires { is_within_limits config.now ≡ true }
    ensures { result ≡ config.now.own }
{
    let Some(own) = ReplicaId::new(config.own) else {
        unreachable!()
    };
    own
}

/// Two empty documents of these members.
///
/// # Errors
/// As `Document::new`.
fn two_documents(alloc: Global, members: &[u32]) -> Result<(Document, Document), Refusal>
    ensures tables { IfOk result (λ r. (r.0.members ≡ in_order members.now) × (r.1.members ≡ in_order members.now)) }
    ensures empty { IfOk result (λ r. (r.0.entries ≡ []) × (r.1.entries ≡ [])) }
    ensures bad_config { (result ≡ Err BadConfig) ↔ IsFalse (are_members members.now) }
    ensures err { IfErr result (λ why. (why ≡ BadConfig) ⊎ (why ≡ NoMemory)) }
{
    let first = Document::new(alloc, members)?;
    let second = Document::new(alloc, members)?;
    Ok((first, second))
}

/// Opens an engine: returns its writer, its clients numbered from 0, and its readers, as many of each as the configuration says. `N` names
/// the engine: the caller picks it for these parts, and whatever carries it is of this engine. If opening is refused halfway, the copies
/// are ended again, which needs the permission to wait, although there is no reader yet to wait for.
///
/// # Errors
/// `NoReaderPlace` if the copies have no token for a reader: no contract says when that is, and tests never met it. `NoMemory` if
/// allocation fails. The parts are dropped then: `prepare` new ones.
pub fn open<N: EngineName>(
    rt: &impl Wait,
    alloc: Global,
    parts: Parts,
) -> Result<(Writer<N>, Vec<Client<N>>, Vec<ReaderToken<N>>), Refusal>
    requires book { parts.opened.seen.book ≡ N.book }
    requires own { parts.config.own ≡ N.own }
    requires table { in_order parts.config.members ≡ N.table }
    ensures writer { IfOk result (λ r. r.0 ≡ new_writer parts.config) }
    ensures clients { IfOk result
        (λ r. AreNumbered 0 r.1.items × (length r.1.items ≡ parts.config.clients) × All (IsNewClient parts.config) r.1.items) }
    ensures readers { IfOk result (λ r. (length r.2.items ≡ parts.config.readers) × All (λ s. s.seen ≡ []) r.2.items) }
    ensures err { IfErr result (λ why. (why ≡ NoMemory) ⊎ (why ≡ NoReaderPlace)) }
{
    let Parts {
        config,
        opened,
        own,
        replica,
        first,
        second,
    } = parts;
    let count = config.clients as usize + config.readers as usize;
    let (publisher, mut tokens, unnamed) = command::open_published::<N>(
        rt, alloc, opened, first, second, count,
    )?;
    match new_ends::<N>(alloc, &config, own, unnamed, &mut tokens) {
        Ok((taker, queue_name, held, clients)) => {
            let batch = config.batch as usize;
            let writer = Writer::new(publisher, replica, taker, queue_name, held, batch);
            Ok((writer, clients, tokens))
        }
        Err(AllocError) => {
            let _ended = publisher.end(rt);
            Err(Refusal::NoMemory)
        }
    }
}

/// The writer's end of a new queue with its name, an empty batch with its capacity, and a client for each of the last tokens.
fn new_ends<N: EngineName>(
    alloc: Global,
    config: &Config,
    own: ReplicaId,
    unnamed: Unnamed<N>,
    tokens: &mut Vec<ReaderToken<N>>,
) -> Result<(Taker<N>, QueueName<N>, Vec<Handled<N>>, Vec<Client<N>>), AllocError>
    requires good { is_within_limits config.now ≡ true }
    requires own { own ≡ config.now.own }
    requires tokens { length tokens.old.items ≡ config.now.clients + config.now.readers }
    requires unseen { All (λ s. s.seen ≡ []) tokens.old.items }
    ensures taker { IfOk result
        (λ r. ((view r.0.pass).got ≡ []) × ((view r.0.pass).known ≡ []) × ((view r.0.pass).made ≡ config.now.clients)
        × (r.0.found_empty ≡ 0)) }
    ensures queue_name { IfOk result (λ r. IsQueueOf r.0.pass.table_id r.1.seen.log) }
    ensures held { IfOk result (λ r. (r.2.items ≡ []) × (config.now.batch ≤ vec_capacity r.2)) }
    ensures clients { IfOk result
        (λ r. AreNumbered 0 r.3.items × (length r.3.items ≡ config.now.clients) × All (IsNewClient config.now) r.3.items) }
    ensures readers { IfOk result (λ r. (length tokens.new.items ≡ config.now.readers) × All (λ s. s.seen ≡ []) tokens.new.items) }
{
    let mut held = Vec::new(alloc);
    held.reserve(config.batch as usize)?;
    let mut taker = new_queue::<N>(alloc, config)?;
    let queue_name = taker.name_queue(unnamed)?;
    let mut clients = Vec::new(alloc);
    clients.reserve(config.clients as usize)?;
    for number in 0..config.clients as usize {
        let Some(token) = tokens.pop() else {
            unreachable!()
        };
        let sender = taker.sender()?;
        let serials = u64::from(config.serials);
        clients.push_reserved(Client::new(
            alloc,
            own,
            number,
            serials,
            token,
            sender,
            queue_name.again(),
        ));
    }
    Ok((taker, queue_name, held, clients))
}

/// The writer's end of an empty queue, whose capacity is within its limits.
fn new_queue<N: EngineName>(alloc: Global, config: &Config) -> Result<Taker<N>, AllocError>
    requires { is_within_limits config.now ≡ true }
    ensures empty { IfOk result
        (λ t. (view t.pass ≡ taker_hand [] 0 []) × (ruled_capacity (arc_value t.queue) ≡ config.now.queue) × (t.found_empty ≡ 0)) }
{
    match Queue::new(alloc, config.queue as usize) {
        Ok(taker) => Ok(taker),
        Err(why) => {
            prove_eq!(why, Refusal::NoMemory);
            Err(AllocError)
        }
    }
}
