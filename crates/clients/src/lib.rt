// The client IDs that the row of a 50.4 holds.
//
// One public function, `read_clients`: it takes any message and any two places, and takes up the children
// between them in byte order. It makes no test: what a message that passed its tests cannot hold is
// passed over. It writes nothing; the walk changes one local.
#![tactic(auto)]

ghost use Rattle.std.specs.Prelude.{◌≡◌, ◌+◌, ◌≤◌, length};
ghost use Rattle.clients.specs.Clients.{no_clients, is_client, client_at, clients_in};

use table::Client;

// The client IDs of one rule. Places from the count on hold 0.
// Kept: an array with its count beside, since there is no heap and the record Rule takes them in just that form.
#[derive(Clone, Copy)]
pub struct Clients {
    pub count: u8,
    pub list: [Client; 8],
}

// The client ID of the child of 50.4 at `at` whose value has `len` bytes.
fn client_at(message: &[u8], at: usize, len: usize) -> Client
    requires { at + 2 + len ≤ length message.now }
    ensures { result ≡ client_at message.now at len }
{
    let kind = message[at];
    if kind == 2 {
        let mac = numbers::number6(message, at + 2);
        return Client {
            kind: 2,
            value: mac,
        };
    }
    if kind == 1 && len == 0 {
        return Client { kind: 0, value: 0 };
    }
    let number = numbers::number2(message, at + 2);
    Client {
        kind,
        value: number as u64,
    }
}

// No client ID.
fn no_clients() -> Clients
    ensures { result ≡ no_clients }
{
    let list = [table::empty_client(); 8];
    Clients { count: 0, list }
}

// Whether a child of 50.4 is a client ID.
fn is_client(kind: u8) -> bool
    ensures { result ≡ is_client kind }
{
    kind <= 4 && kind != 0
}

// The client IDs of the 50.4 whose value is the row `from` to `end`.
pub fn read_clients(message: &[u8], from: usize, end: usize) -> Clients
    ensures { result ≡ clients_in message.now from end }
{
    let mut clients = no_clients();
    for child in children::children_of(message, from, end) {
        let used = clients.count;
        if is_client(child.kind) && used < 8 {
            let one = client_at(message, child.at, child.len);
            clients.list[used as usize] = one;
            clients.count = used + 1;
        }
    }
    clients
}
