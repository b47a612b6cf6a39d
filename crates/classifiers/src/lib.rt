// What the row of a classifier leaves in a table.
//
// One public function, `classifier_at`: it takes any message and any place, and takes up the children of
// the element there in byte order. It makes no test: what a message that passed its tests cannot hold is
// passed over, and where no element stands the answer is the empty classifier. It writes nothing; each
// walk changes one local.
#![tactic(auto)]

ghost use Rattle.std.specs.Prelude.{◌≡◌};
ghost use Rattle.classifiers.specs.Classifiers.{with_part, classifier_at};

use table::Classifier;

// The classifier with the IP part, the row `from` to `end`, taken up.
fn with_part(message: &[u8], from: usize, end: usize, given: Classifier) -> Classifier
    ensures { result ≡ with_part message.now from end given }
{
    let mut classifier = given;
    for child in children::children_of(message, from, end) {
        let value = child.at + 2;
        match child.kind {
            3 => {
                classifier.source = numbers::number4(message, value);
                classifier.hassource = 1;
            }
            4 => {
                classifier.mask = numbers::number4(message, value);
                classifier.hasmask = 1;
            }
            5 => {
                classifier.destination = numbers::number4(message, value);
            }
            9 => {
                classifier.start = numbers::number2(message, value);
                classifier.hasstart = 1;
            }
            10 => {
                classifier.end = numbers::number2(message, value);
                classifier.hasend = 1;
            }
            _ => {}
        }
    }
    classifier
}

// The classifier of the element at `at`. Never inlined: a function sets what it holds to 0 at its start, and the reader, which calls this
// one for a classifier alone, would do so for every message.
#[inline(never)]
pub fn classifier_at(message: &[u8], at: usize) -> Classifier
    ensures { result ≡ classifier_at message.now at }
{
    let mut classifier = table::empty_classifier();
    for child in children::inside(message, at) {
        let value = child.at + 2;
        match child.kind {
            2 => {
                classifier.number = numbers::number2(message, value);
            }
            5 => {
                classifier.priority = numbers::number1(message, value);
            }
            9 => {
                classifier = with_part(message, value, value + child.len, classifier);
            }
            _ => {}
        }
    }
    classifier
}
