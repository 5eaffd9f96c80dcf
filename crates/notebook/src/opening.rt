//! Opening a notebook: an engine that resumes from a journal.

ghost use Rattle.std.specs.Prelude.{◌≡◌, ◌∷◌, [], ℕ, false, length, IfErr, IfOk};
ghost use Rattle.ids.specs.declared.refusal.Refusal.TheVariants.{NoMemory};
ghost use Rattle.ids.specs.Members.{in_order};
ghost use Rattle.semantics.specs.Entries.{IsEntryHistory};
ghost use Rattle.journal.specs.wire.Lines.{cut};
ghost use Rattle.journal.specs.records.Replays.{BringsBackLines};
ghost use Rattle.store.specs.Shelves.{first_known};
ghost use Rattle.store.specs.WholeLines.{AreWhole};

use crate::writing::Notebook;
use engine::{
    Client, Config, EngineName, Parts, ReaderToken, Refusal, Writer, close, open as open_engine,
};
use ids::ReplicaId;
use journal::{Outgoing, Replay, Unfit};
use std::alloc::Global;
use std::sync::Wait;
use store::{Fault, Journal, Shelf, Store, Unopened, is_begun, unfit, whole_len};

/// The configuration of a notebook's engine: it lists its own number alone, and has a client and two readers.
///
/// # Errors
/// `NoMemory` if allocation fails.
pub fn config_of(alloc: Global, own: ReplicaId) -> Result<Config, Refusal>
    ensures numbers { IfOk result (λ c. (c.own ≡ own) × (c.members ≡ own ∷ []) × (c.clients ≡ 1) × (c.readers ≡ 2)) }
    ensures err { IfErr result (λ why. why ≡ NoMemory) }
{
    Ok(Config {
        own: own.number(),
        members: vec![in alloc; own.number()]?,
        clients: 1,
        readers: 2,
        queue: 256,
        batch: 256,
        serials: u32::MAX,
    })
}

impl<N: EngineName, S: Store> Notebook<N, S> {
    /// Opens a notebook that resumes from a journal, with the number of the parts. Takes the whole lines; cuts the store after them; syncs
    /// it, since what a start reads may be in memory alone; and then calls all of them stored. Costs what receiving as many lines costs.
    ///
    /// # Errors
    /// The store is returned with the reason. `Refused` as `open` of an engine, also if the parts have no client or fewer than two readers;
    /// `Damaged` with the first line that doesn't fit, also one without a line feed that doesn't begin like a line: the store is then
    /// unchanged. `Store` if it can't be cut or synced.
    pub fn open(
        rt: &impl Wait,
        alloc: Global,
        parts: Parts,
        journal: Journal<S>,
    ) -> Result<Notebook<N, S>, Unopened<S>>
        requires book { parts.opened.seen.book ≡ N.book }
        requires own { parts.config.own ≡ N.own }
        requires table { in_order parts.config.members ≡ N.table }
        ensures brought { IfOk result (λ n. BringsBackLines [] (cut journal.bytes.items).lines n.seen) }
        ensures stored { IfOk result (λ n. n.stored ≡ length n.seen) }
        ensures legal { IfOk result (λ n. IsEntryHistory N.own n.seen) }
        ensures client { IfOk result (λ n. n.client.seen ≡ n.seen) }
        ensures held { IfOk result
            (λ n. (n.is_lost ≡ false) × (n.synced ≡ n.held)
            × ((whole : ℕ) × AreWhole whole journal.bytes.items × (n.held ≡ first_known whole (S.contents journal.store)))) }
    {
        let Journal { store, bytes } = journal;
        match begin::<N>(rt, alloc, parts, &bytes) {
            Ok(ends) => match Shelf::of(store, ends.length, bytes.len()) {
                Ok(shelf) => Ok(Notebook::of(ends, shelf)),
                Err(unopened) => {
                    ends.close(rt);
                    Err(unopened)
                }
            },
            Err(why) => Err(Unopened { store, why }),
        }
    }
}

/// The ends of an engine that has resumed from a journal.
pub struct Ends<N: EngineName> {
    pub writer: Writer<N>,
    pub client: Client<N>,
    /// The other clients of the configuration, with room for this one.
    pub others: Vec<Client<N>>,
    pub reader: ReaderToken<N>,
    pub outgoing: Outgoing<N>,
    /// How many bytes the replayed lines have.
    pub length: usize,
}

impl<N: EngineName> Ends<N> {
    /// Closes the engine.
    fn close(self, rt: &impl Wait) {
        let Ends {
            writer,
            client,
            others,
            reader: _reader,
            outgoing: _outgoing,
            length: _,
        } = self;
        end(rt, writer, client, others);
    }
}

/// Opens an engine, and resumes from the whole lines of these bytes.
fn begin<N: EngineName>(
    rt: &impl Wait,
    alloc: Global,
    parts: Parts,
    bytes: &[u8],
) -> Result<Ends<N>, Fault>
    requires book { parts.opened.seen.book ≡ N.book }
    requires own { parts.config.own ≡ N.own }
    requires table { in_order parts.config.members ≡ N.table }
    ensures brought { IfOk result (λ ends. BringsBackLines [] (cut bytes.now).lines ends.client.seen) }
    ensures sent { IfOk result (λ ends. (ends.outgoing.seen ≡ ends.client.seen) × IsEntryHistory N.own ends.client.seen) }
    ensures whole { IfOk result (λ ends. AreWhole ends.length bytes.now) }
{
    let (mut writer, mut others, readers) = open_engine::<N>(rt, alloc, parts)?;
    let Some(mut client) = others.pop() else {
        let _final = close(rt, writer, others);
        return Err(Fault::Refused(Refusal::NoReaderPlace));
    };
    match go_on(rt, alloc, &mut writer, &mut client, readers, bytes) {
        Ok((reader, outgoing, length)) => Ok(Ends {
            writer,
            client,
            others,
            reader,
            outgoing,
            length,
        }),
        Err(why) => {
            end(rt, writer, client, others);
            Err(why)
        }
    }
}

/// Closes an engine with all its clients; `others` has room for `client`.
pub fn end<N: EngineName>(
    rt: &impl Wait,
    writer: Writer<N>,
    client: Client<N>,
    others: Vec<Client<N>>,
) {
    let mut clients = others;
    let _room = clients.push(client);
    let _final = close(rt, writer, clients);
}

/// Resumes a new engine from the whole lines of these bytes. Returns its readers, and how many bytes the lines have.
fn go_on<N: EngineName>(
    rt: &impl Wait,
    alloc: Global,
    writer: &mut Writer<N>,
    client: &mut Client<N>,
    readers: Vec<ReaderToken<N>>,
    bytes: &[u8],
) -> Result<(ReaderToken<N>, Outgoing<N>, usize), Fault>
    ensures brought { IfOk result (λ _. BringsBackLines client.old.seen (cut bytes.now).lines client.new.seen) }
    ensures sent { IfOk result (λ r. (r.1.seen ≡ client.new.seen) × IsEntryHistory N.own client.new.seen) }
    ensures whole { IfOk result (λ r. AreWhole r.2 bytes.now) }
{
    let mut readers = readers;
    let (Some(reader), Some(token)) = (readers.pop(), readers.pop()) else {
        return Err(Fault::Refused(Refusal::NoReaderPlace));
    };
    let length = replay(rt, alloc, writer, client, bytes)?;
    let outgoing = outgoing_of(writer, client, token)?;
    Ok((reader, outgoing, length))
}

/// Replays the whole lines of these bytes, and returns how many bytes they have.
fn replay<N: EngineName>(
    rt: &impl Wait,
    alloc: Global,
    writer: &mut Writer<N>,
    client: &mut Client<N>,
    bytes: &[u8],
) -> Result<usize, Fault>
    ensures brought { IfOk result (λ _. BringsBackLines client.old.seen (cut bytes.now).lines client.new.seen) }
    ensures whole { IfOk result (λ whole. AreWhole whole bytes.now) }
{
    let whole = whole_len(bytes);
    let replayed = Replay::new().take(rt, alloc, writer, client, &bytes[..whole]);
    if let Some((line, why)) = replayed.stopped {
        return Err(unfit(line, why));
    }
    if is_begun(&bytes[whole..]) {
        Ok(whole)
    } else {
        let line = replayed.entries.saturating_add(1);
        Err(unfit(line, Unfit::Refused(Refusal::BadLine)))
    }
}

/// The `Outgoing` of this token, which has seen what the client has.
fn outgoing_of<N: EngineName>(
    writer: &Writer<N>,
    client: &mut Client<N>,
    token: ReaderToken<N>,
) -> Result<Outgoing<N>, Refusal>
    ensures same { IfOk result (λ _. client.new.seen ≡ client.old.seen) }
    ensures seen { IfOk result (λ o. (o.seen ≡ client.old.seen) × IsEntryHistory N.own o.seen) }
{
    let mut token = token;
    let notice = writer.notice();
    token.learn(&notice);
    let seen = client.seen_len();
    client.learn(&notice);
    if !token.begins(&notice) || token.seen_len() != seen || client.seen_len() != seen {
        // Unreachable: what is published is what the client has seen, but no contract says so.
        return Err(Refusal::NoReading);
    }
    Ok(Outgoing::new(token, client.replica()))
}
