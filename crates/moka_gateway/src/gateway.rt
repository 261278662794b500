//! The gateway.

ghost use Rattle.std.specs.Prelude.{◌≡◌, ◌++◌, ◌∷◌, [], ℕ, List, nat_eq, map, filter, flat_map, false, true, Option, Some, IfNone, IfOk, IfSome, OnOk, OnErr};
ghost use Rattle.std.specs.HashMap.{get, hash_map_len};
ghost use Rattle.std.specs.Option.{option_to_list};
ghost use Rattle.moka_collapsing.specs.declared.out.Out.TheVariants.{Cancel, Fetch};
ghost use Rattle.moka_collapsing.specs.Clients.{Client as AClient, due_bytes, flushed};
ghost use Rattle.moka_collapsing.specs.Folds.{folded};
ghost use Rattle.moka_collapsing.specs.Reference.{Come, ascending, comes, due_to, gives, key_of, sends, sent_to, to_client};
ghost use Rattle.moka_collapsing.specs.Upstream.{Upstream, is_left, left};
ghost use Rattle.moka_requests.specs.declared.request.Request.TheVariants.{Get};
ghost use Rattle.moka_gateway.specs.Fetches.{IsFetches};
ghost use Rattle.moka_gateway.specs.Folds.{HasCome, brought_by, clients_of, gives_one, left_keys, sent_all};

use crate::fetches::Fetches;
use bytes::Bytes;
use moka_collapsing::{
    Answer, Client, Given, Out, OutList, Place, Slot, closes_are_lawful, feeds_are_lawful,
    replies_are_lawful, runs_are_served,
};
use moka_requests::Request;
use std::alloc::{AllocError, Global};
use std::collections::{BTreeSet, HashMap, VecDeque};

/// How many clients may be open at once.
const MOST_CLIENTS: usize = 1000;

/// The clients that are open, by their numbers.
type Clients = HashMap<u64, Client>;

/// A gateway between clients and an upstream. Clients send lines `get K` in any pieces. Requests for
/// one key share one upstream request, and each client gets its replies in the order of its requests:
/// `value V`, `error E`, or `bad` for any other line. Values are stored for good, errors are not.
///
/// A gateway opens nothing itself. Its owner gives it the bytes that clients sent and what upstream
/// requests brought, and does what the answers say.
///
/// Want of memory spends a gateway: from then on each call answers it.
#[derive(Drop)]
pub struct Gateway {
    alloc: Global,
    spent: bool,
    fetches: Fetches,
    clients: Clients,
    last_client: u64,
}

impl Gateway {
    ghost use Rattle.moka_collapsing.specs.Laws.{CloseIsLawful, FeedIsLawful, ReplyIsLawful};
    ghost use Rattle.moka_collapsing.specs.Reference.{Reference, closes, feeds, fresh, opens, replies};
    ghost use Rattle.moka_collapsing.specs.Runs.{Close, Event, Feed, Open, Reply};
    ghost use Rattle.moka_gateway.specs.Gateway.{Has, IsAfter, IsGateway, IsSpent, IsUsable};

    /// Builds a gateway that has no client and has stored nothing.
    pub fn new(alloc: Global) -> Result<Gateway, AllocError>
        ensures fresh { IfOk result (λ g. IsGateway g fresh) }
        ensures after { IfOk result (λ g. IsAfter g []) }
        ensures usable { IfOk result IsUsable }
    {
        runs_are_served();
        let gateway = Gateway::build(alloc)?;
        Ok(gateway)
    }

    fn build(alloc: Global) -> Result<Gateway, AllocError>
        ensures { IfOk result (λ g. IsGateway g fresh) }
    {
        Ok(Gateway {
            alloc,
            spent: false,
            fetches: Fetches::new(alloc)?,
            clients: HashMap::new(alloc),
            last_client: 0,
        })
    }

    /// Opens a client, and answers its number: 1 for the first, and then the next each time; a number
    /// is never given again. None exactly where 1000 clients are open, and nothing changes. The end of
    /// the numbers counts as want of memory.
    pub fn open(&mut self) -> Result<Option<u64>, AllocError>
        requires usable { IsUsable self.old }
        ensures answers { IfOk result (λ answer. (g : Reference) → IsGateway self.old g
            → (answer ≡ (opens g).0) × IsGateway self.new (opens g).1) }
        ensures after { OnOk result ((events : List Event) → IsAfter self.old events
            → IsAfter self.new (events ++ Open ∷ [])) }
        ensures usable { IsUsable self.new }
        ensures spent { OnErr result (IsSpent self.new) }
        ensures stays { IsSpent self.old → OnOk result ⊥ }
    {
        runs_are_served();
        self.begin()?;
        let number = self.open_next()?;
        self.spent = false;
        Ok(number)
    }

    /// Takes the bytes that a client sent, in whatever pieces they come. Answers what is to be done:
    /// the fetches of its requests for keys that are not stored and have no open upstream request, and
    /// the replies to it that are due. None exactly where the client is not open, and nothing changes.
    pub fn feed(&mut self, client: u64, bytes: &[u8]) -> Result<Option<OutList>, AllocError>
        requires usable { IsUsable self.old }
        ensures answers { IfOk result (λ answer. (g : Reference) → IsGateway self.old g
            → (answer ≡ (feeds g client bytes.now).0)
            × IsGateway self.new (feeds g client bytes.now).1) }
        ensures lawful { (g : Reference) (it : AClient) → IsGateway self.old g
            → g.clients client ≡ Some it → FeedIsLawful g client it bytes.now }
        ensures after { OnOk result ((events : List Event) → IsAfter self.old events
            → IsAfter self.new (events ++ Feed client bytes.now ∷ [])) }
        ensures usable { IsUsable self.new }
        ensures spent { OnErr result (IsSpent self.new) }
        ensures stays { IsSpent self.old → OnOk result ⊥ }
    {
        feeds_are_lawful();
        runs_are_served();
        self.begin()?;
        let outs = self.feed_open(client, bytes)?;
        self.spent = false;
        Ok(outs)
    }

    /// Takes what the upstream request of a key brought: a value, which is stored, or an error. Answers
    /// what is to be sent to those that waited. None exactly where no upstream request of the key is
    /// open, and nothing changes.
    pub fn reply(
        &mut self,
        key: u32,
        answer: Result<u32, u32>,
    ) -> Result<Option<OutList>, AllocError>
        requires usable { IsUsable self.old }
        ensures answers { IfOk result (λ outs. (g : Reference) → IsGateway self.old g
            → (outs ≡ (replies g key answer).0) × IsGateway self.new (replies g key answer).1) }
        ensures lawful { (g : Reference) → IsGateway self.old g → ReplyIsLawful g key answer }
        ensures after { OnOk result ((events : List Event) → IsAfter self.old events
            → IsAfter self.new (events ++ Reply key answer ∷ [])) }
        ensures usable { IsUsable self.new }
        ensures spent { OnErr result (IsSpent self.new) }
        ensures stays { IsSpent self.old → OnOk result ⊥ }
    {
        replies_are_lawful();
        runs_are_served();
        self.begin()?;
        let outs = self.settle(key, answer)?;
        self.spent = false;
        Ok(outs)
    }

    /// Closes a client: its requests wait no more, and it is sent nothing further. An upstream request
    /// for which others wait goes on; answers the cancels of those for which nobody does. None exactly
    /// where the client is not open, and nothing changes.
    pub fn close(&mut self, client: u64) -> Result<Option<OutList>, AllocError>
        requires usable { IsUsable self.old }
        ensures answers { IfOk result (λ answer. (g : Reference) → IsGateway self.old g
            → (answer ≡ (closes g client).0) × IsGateway self.new (closes g client).1) }
        ensures lawful { (g : Reference) (it : AClient) → IsGateway self.old g
            → g.clients client ≡ Some it → CloseIsLawful g client it }
        ensures after { OnOk result ((events : List Event) → IsAfter self.old events
            → IsAfter self.new (events ++ Close client ∷ [])) }
        ensures usable { IsUsable self.new }
        ensures spent { OnErr result (IsSpent self.new) }
        ensures stays { IsSpent self.old → OnOk result ⊥ }
    {
        closes_are_lawful();
        runs_are_served();
        self.begin()?;
        let outs = self.close_open(client)?;
        self.spent = false;
        Ok(outs)
    }

    // Begins a call: the gateway is spent unless the call comes to its end.
    fn begin(&mut self) -> Result<(), AllocError>
        ensures ok { OnOk result ((self.old.spent ≡ false)
            × (self.new ≡ record self.old { spent = true })) }
        ensures err { OnErr result (IsSpent self.new) }
        ensures stays { IsSpent self.old → OnOk result ⊥ }
    {
        if self.spent {
            return Err(AllocError);
        }
        self.spent = true;
        Ok(())
    }

    // Opens the next client, unless as many are open as may be.
    fn open_next(&mut self) -> Result<Option<u64>, AllocError>
        requires { (g : Reference) × Has self.old g }
        ensures answers { IfOk result (λ answer. (g : Reference) → Has self.old g
            → (answer ≡ (opens g).0) × Has self.new (opens g).1) }
        ensures spent { self.new.spent ≡ self.old.spent }
    {
        if self.clients.len() == MOST_CLIENTS {
            return Ok(None);
        }
        let number = self.last_client.checked_add(1).ok_or(AllocError)?;
        self.clients.insert(number, Client::new(self.alloc))?;
        self.last_client = number;
        Ok(Some(number))
    }

    // Feeds the client its bytes, if it is open.
    fn feed_open(&mut self, client: u64, bytes: &[u8]) -> Result<Option<OutList>, AllocError>
        requires { (g : Reference) × Has self.old g }
        ensures answers { IfOk result (λ answer. (g : Reference) → Has self.old g
            → (answer ≡ (feeds g client bytes.now).0) × Has self.new (feeds g client bytes.now).1) }
        ensures spent { self.new.spent ≡ self.old.spent }
    {
        match self.clients.get_mut(&client) {
            Some(it) => {
                let outs = feed_client(self.alloc, &mut self.fetches, client, it, bytes)?;
                Ok(Some(outs))
            }
            None => Ok(None),
        }
    }

    // Gives those that waited for the key what was brought, if any did.
    fn settle(&mut self, key: u32, answer: Result<u32, u32>) -> Result<Option<OutList>, AllocError>
        requires { (g : Reference) × Has self.old g }
        ensures answers { IfOk result (λ outs. (g : Reference) → Has self.old g
            → (outs ≡ (replies g key answer).0) × Has self.new (replies g key answer).1) }
        ensures spent { self.new.spent ≡ self.old.spent }
    {
        match self.fetches.settle(key, answer)? {
            Some(given) => {
                let outs = answer_clients(self.alloc, &mut self.clients, &given)?;
                Ok(Some(outs))
            }
            None => Ok(None),
        }
    }

    // Closes the client, if it is open.
    fn close_open(&mut self, client: u64) -> Result<Option<OutList>, AllocError>
        requires { (g : Reference) × Has self.old g }
        ensures answers { IfOk result (λ answer. (g : Reference) → Has self.old g
            → (answer ≡ (closes g client).0) × Has self.new (closes g client).1) }
        ensures spent { self.new.spent ≡ self.old.spent }
    {
        match self.clients.remove(&client) {
            Some(it) => {
                let outs = drop_requests(self.alloc, &mut self.fetches, it.into_slots())?;
                Ok(Some(outs))
            }
            None => Ok(None),
        }
    }
}

// ---- feeding

// Feeds one client its bytes.
fn feed_client(
    alloc: Global,
    fetches: &mut Fetches,
    number: u64,
    client: &mut Client,
    bytes: &[u8],
) -> Result<OutList, AllocError>
    requires { (u : Upstream) × IsFetches fetches.old u }
    ensures outs { IfOk result (λ outs. (u : Upstream) → IsFetches fetches.old u
        → outs ≡ map Fetch (brought_by u number client.old bytes.now).fetches
        ++ to_client number (due_bytes (brought_by u number client.old bytes.now).client)) }
    ensures come { OnOk result ((u : Upstream) → IsFetches fetches.old u
        → IsFetches fetches.new (brought_by u number client.old bytes.now).upstream
        × (client.new ≡ flushed (brought_by u number client.old bytes.now).client)) }
{
    let requests = client.read(alloc, bytes)?;
    let mut outs = Vec::new(alloc);
    all_come(fetches, number, client, &requests, &mut outs)?;
    send_to(alloc, &mut outs, number, client)?;
    Ok(OutList::from_vec(outs))
}

// The requests of the client of this number come, one after the other.
fn all_come(
    fetches: &mut Fetches,
    number: u64,
    client: &mut Client,
    requests: &[Request],
    outs: &mut Vec<Out>,
) -> Result<(), AllocError>
    requires { (c : Come) × HasCome fetches.old client.old outs.old.items c }
    ensures { OnOk result ((c : Come) → HasCome fetches.old client.old outs.old.items c
        → HasCome fetches.new client.new outs.new.items (folded (comes number) c requests.now)) }
{
    for request in requests {
        come(fetches, number, client, *request, outs)?;
    }
    Ok(())
}

// A request of the client of this number comes.
fn come(
    fetches: &mut Fetches,
    number: u64,
    client: &mut Client,
    request: Request,
    outs: &mut Vec<Out>,
) -> Result<(), AllocError>
    requires { (c : Come) × HasCome fetches.old client.old outs.old.items c }
    ensures { OnOk result ((c : Come) → HasCome fetches.old client.old outs.old.items c
        → HasCome fetches.new client.new outs.new.items (comes number c request)) }
{
    match request {
        Request::Bad => client.add(Slot::Answered(Answer::Bad)),
        Request::Get(key) => come_for(fetches, number, client, key, outs),
    }
}

// A request for the key comes, and maybe opens its upstream request.
fn come_for(
    fetches: &mut Fetches,
    number: u64,
    client: &mut Client,
    key: u32,
    outs: &mut Vec<Out>,
) -> Result<(), AllocError>
    requires { (c : Come) × HasCome fetches.old client.old outs.old.items c }
    ensures { OnOk result ((c : Come) → HasCome fetches.old client.old outs.old.items c
        → HasCome fetches.new client.new outs.new.items (comes number c (Get key))) }
{
    let index = client.made()?;
    let place = Place {
        client: number,
        index,
    };
    let asked = fetches.ask(key, place)?;
    client.add(asked.slot)?;
    push_fetch(outs, asked.fetch)
}

// Adds the fetch of this key, if there is one.
fn push_fetch(outs: &mut Vec<Out>, key: Option<u32>) -> Result<(), AllocError>
    ensures { OnOk result (outs.new.items ≡ outs.old.items ++ map Fetch (option_to_list key)) }
{
    if let Some(key) = key {
        outs.push(Out::Fetch(key))?;
    }
    Ok(())
}

// Sends the client what is due, if anything is.
fn send_to(
    alloc: Global,
    outs: &mut Vec<Out>,
    number: u64,
    client: &mut Client,
) -> Result<(), AllocError>
    ensures outs { OnOk result (outs.new.items
        ≡ outs.old.items ++ to_client number (due_bytes client.old)) }
    ensures left { OnOk result (client.new ≡ flushed client.old) }
{
    let text = client.flush(alloc)?;
    if text.is_empty() {
        return Ok(());
    }
    let bytes = Bytes::from_string(text)?;
    outs.push(Out::To {
        client: number,
        bytes,
    })?;
    Ok(())
}

// ---- answering

// Gives the requests that waited their answers, and sends their clients what is due, by ascending
// number.
fn answer_clients(
    alloc: Global,
    clients: &mut Clients,
    given: &[Given],
) -> Result<OutList, AllocError>
    ensures outs { IfOk result (λ outs. (cs : ℕ → Option AClient)
        → ((n : ℕ) → get nat_eq clients.old n ≡ cs n) → outs ≡ (sent_all cs given.now).outs) }
    ensures sent { OnOk result ((cs : ℕ → Option AClient)
        → ((n : ℕ) → get nat_eq clients.old n ≡ cs n)
        → (n : ℕ) → get nat_eq clients.new n ≡ (sent_all cs given.now).clients n) }
    ensures count { hash_map_len clients.new ≡ hash_map_len clients.old }
{
    let numbers = give_all(alloc, clients, given)?;
    send_all(alloc, clients, numbers)
}

// Gives the requests that waited their answers, and lists their clients.
fn give_all(
    alloc: Global,
    clients: &mut Clients,
    given: &[Given],
) -> Result<BTreeSet<u64>, AllocError>
    ensures numbers { IfOk result (λ numbers. numbers.keys ≡ clients_of given.now) }
    ensures given { OnOk result ((cs : ℕ → Option AClient)
        → ((n : ℕ) → get nat_eq clients.old n ≡ cs n)
        → (n : ℕ) → get nat_eq clients.new n ≡ folded gives_one cs given.now n) }
    ensures count { hash_map_len clients.new ≡ hash_map_len clients.old }
{
    let mut numbers = BTreeSet::new(alloc);
    for it in given {
        give(clients, it.place, it.answer);
        numbers.insert(it.place.client)?;
    }
    Ok(numbers)
}

// Sends the clients of these numbers what is due.
fn send_all(
    alloc: Global,
    clients: &mut Clients,
    mut numbers: BTreeSet<u64>,
) -> Result<OutList, AllocError>
    ensures outs { IfOk result (λ outs. (cs : ℕ → Option AClient)
        → ((n : ℕ) → get nat_eq clients.old n ≡ cs n)
        → outs ≡ (folded sends (record { clients = cs; outs = [] }) numbers.keys).outs) }
    ensures sent { OnOk result ((cs : ℕ → Option AClient)
        → ((n : ℕ) → get nat_eq clients.old n ≡ cs n) → (n : ℕ) → get nat_eq clients.new n
        ≡ (folded sends (record { clients = cs; outs = [] }) numbers.keys).clients n) }
    ensures count { hash_map_len clients.new ≡ hash_map_len clients.old }
{
    let mut outs = Vec::new(alloc);
    while let Some(number) = take_least(&mut numbers) {
        send_one(alloc, clients, number, &mut outs)?;
    }
    Ok(OutList::from_vec(outs))
}

// Takes the least of the numbers, if there is one.
fn take_least(numbers: &mut BTreeSet<u64>) -> Option<u64>
    ensures least { IfSome result (λ n. numbers.old.keys ≡ n ∷ numbers.new.keys) }
    ensures none { IfNone result (numbers.old.keys ≡ []) }
{
    numbers.pop_first()
}

// Gives the request at this place its answer, if its client is open.
fn give(clients: &mut Clients, place: Place, answer: Answer)
    ensures given { (n : ℕ) → get nat_eq clients.new n
        ≡ gives answer (get nat_eq clients.old) place n }
    ensures count { hash_map_len clients.new ≡ hash_map_len clients.old }
{
    if let Some(client) = clients.get_mut(&place.client) {
        client.answer(place.index, answer);
    }
}

// Sends the client of this number what is due, if it is open.
fn send_one(
    alloc: Global,
    clients: &mut Clients,
    number: u64,
    outs: &mut Vec<Out>,
) -> Result<(), AllocError>
    ensures outs { OnOk result (outs.new.items
        ≡ outs.old.items ++ due_to (get nat_eq clients.old) number) }
    ensures sent { OnOk result ((n : ℕ) → get nat_eq clients.new n
        ≡ sent_to (get nat_eq clients.old) number n) }
    ensures count { hash_map_len clients.new ≡ hash_map_len clients.old }
{
    match clients.get_mut(&number) {
        Some(client) => send_to(alloc, outs, number, client),
        None => Ok(()),
    }
}

// ---- closing

// Lets the requests of a client leave that is closed, and cancels what nobody waits for any more.
fn drop_requests(
    alloc: Global,
    fetches: &mut Fetches,
    slots: VecDeque<Slot>,
) -> Result<OutList, AllocError>
    requires { (u : Upstream) × IsFetches fetches.old u }
    ensures outs { IfOk result (λ outs. (u : Upstream) → IsFetches fetches.old u
        → outs ≡ map Cancel (left_keys (folded left u slots.items) slots.items)) }
    ensures left { OnOk result ((u : Upstream) → IsFetches fetches.old u
        → IsFetches fetches.new (folded left u slots.items)) }
{
    let keys = leave_all(alloc, fetches, slots)?;
    let left = not_open(alloc, fetches, &keys)?;
    cancels_of(alloc, left)
}

// Lets these requests leave, and lists the keys for which they waited.
fn leave_all(
    alloc: Global,
    fetches: &mut Fetches,
    mut slots: VecDeque<Slot>,
) -> Result<Vec<u32>, AllocError>
    requires { (u : Upstream) × IsFetches fetches.old u }
    ensures keys { IfOk result (λ keys. keys.items ≡ flat_map key_of slots.items) }
    ensures left { OnOk result ((u : Upstream) → IsFetches fetches.old u
        → IsFetches fetches.new (folded left u slots.items)) }
{
    let mut keys = Vec::new(alloc);
    while let Some(slot) = slots.pop_front() {
        leave(fetches, slot, &mut keys)?;
    }
    Ok(keys)
}

// Lets this request leave, and lists the key for which it waited, if it did.
fn leave(fetches: &mut Fetches, slot: Slot, keys: &mut Vec<u32>) -> Result<(), AllocError>
    requires { (u : Upstream) × IsFetches fetches.old u }
    ensures keys { OnOk result (keys.new.items ≡ keys.old.items ++ key_of slot) }
    ensures left { OnOk result ((u : Upstream) → IsFetches fetches.old u
        → IsFetches fetches.new (left u slot)) }
{
    if let Slot::Waits { key, number } = slot {
        fetches.leave(key, number);
        keys.push(key)?;
    }
    Ok(())
}

// Those of the keys for which nobody waits.
fn not_open(alloc: Global, fetches: &Fetches, keys: &[u32]) -> Result<BTreeSet<u32>, AllocError>
    ensures { IfOk result (λ left. (u : Upstream) → IsFetches fetches.now u
        → left.keys ≡ ascending (filter (is_left u) keys.now)) }
{
    let mut left = BTreeSet::new(alloc);
    for key in keys {
        if !fetches.is_open(*key) {
            left.insert(*key)?;
        }
    }
    Ok(left)
}

// The cancels of these keys.
fn cancels_of(alloc: Global, mut keys: BTreeSet<u32>) -> Result<OutList, AllocError>
    ensures { IfOk result (λ outs. outs ≡ map Cancel keys.keys) }
{
    let mut outs = Vec::new(alloc);
    while let Some(key) = keys.pop_first() {
        outs.push(Out::Cancel(key))?;
    }
    Ok(OutList::from_vec(outs))
}
