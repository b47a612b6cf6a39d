// What the row of a rule leaves in a table.
//
// One public function, `rule_at`: it takes any message and any place, and takes up the children of the
// element there in byte order. It makes no test: what a message that passed its tests cannot hold is
// passed over, and where no element stands the answer is the empty rule. It writes nothing; the walk
// changes one local.
#![tactic(auto)]

ghost use Rattle.std.specs.Prelude.{◌≡◌, ◌+◌, ◌≤◌, length, take, drop, replicate};
ghost use Rattle.wire.specs.Bytes.{pasted};
ghost use Rattle.rules.specs.Rules.{rule_at};

use table::Rule;

// A list of UCIDs: the `len` bytes from `value` on, and 0 behind them.
fn ucids_at(message: &[u8], value: usize, len: usize) -> [u8; 16]
    requires { (len ≤ 16) × (value + len ≤ length message.now) }
    ensures { result ≡ pasted (replicate 16 0) 0 (take len (drop value message.now)) }
{
    let mut list = [0u8; 16];
    wire::copy_at(&mut list, 0, &message[value..value + len]);
    list
}

// The rule of the element at `at`. Never inlined, as `classifiers::classifier_at`: what it holds would be set to 0 for every message.
#[inline(never)]
pub fn rule_at(message: &[u8], at: usize) -> Rule
    ensures { result ≡ rule_at message.now at }
{
    let mut rule = table::empty_rule();
    for child in children::inside(message, at) {
        let value = child.at + 2;
        match child.kind {
            1 => {
                rule.number = numbers::number1(message, value);
            }
            2 => {
                rule.priority = numbers::number1(message, value);
            }
            3 => {
                let len = child.len;
                if len <= 16 {
                    rule.ucids = ucids_at(message, value, len);
                    rule.ucidcount = len as u8;
                }
            }
            4 => {
                let clients = clients::read_clients(message, value, value + child.len);
                let list = clients.list;
                rule.clients = list;
                rule.clientcount = clients.count;
            }
            5 => {
                rule.tunnel = numbers::number6(message, value);
            }
            6 => {
                let n = rule.numbercount;
                if n < 8 {
                    rule.numbers[n as usize] = numbers::number2(message, value);
                    rule.numbercount = n + 1;
                }
            }
            _ => {}
        }
    }
    rule
}
