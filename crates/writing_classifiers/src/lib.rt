// A classifier as an element, at a place of a buffer (document 02, Req 01).
//
// One public function, `put_classifier`. It takes any classifier, buffer and place. Where the longest classifier has no room
// nothing is written and the answer is the place that was given; else just the element is written, and the answer is the
// place behind it. The private functions ask for room from `at` on and answer the place behind what they write.
#![tactic(auto)]

ghost use Rattle.std.specs.Prelude.{◌≡◌, ◌+◌, ◌≤◌, length};
ghost use Rattle.texts.specs.Writing.{Lined};
ghost use Rattle.writing_elements.specs.Encode.{big_endian, element, part, part_row, classifier_row, classifier_bytes};
ghost use Rattle.writing_numbers.specs.Within.{put_within};

use table::Classifier;
use writing_numbers::{put_element, put_number};

// A number that is written where its mark says that it is there.
fn put_part(mark: u8, kind: u8, width: u8, n: u32, out: &mut [u8], at: usize) -> usize
    requires { at + (2 + width) ≤ length out.old }
    ensures { Lined (2 + width) out.old at (part mark (element kind (big_endian width n))) out.new result }
{
    if mark == 0 {
        return at;
    }
    put_number(kind, width, n as u64, out, at)
}

// What a classifier says of a packet, by rising type, 26 bytes at most.
fn put_parts(classifier: Classifier, out: &mut [u8], at: usize) -> usize
    requires { at + 26 ≤ length out.old }
    ensures { Lined 26 out.old at (part_row classifier) out.new result }
{
    let a = put_part(classifier.hassource, 3, 4, classifier.source, out, at);
    let b = put_part(classifier.hasmask, 4, 4, classifier.mask, out, a);
    let c = put_number(5, 4, classifier.destination as u64, out, b);
    let d = put_part(classifier.hasstart, 9, 2, classifier.start as u32, out, c);
    put_part(classifier.hasend, 10, 2, classifier.end as u32, out, d)
}

// The row of these.
fn put_part_row(classifier: Classifier, out: &mut [u8], at: usize) -> usize
    requires { at + 28 ≤ length out.old }
    ensures { Lined 28 out.old at (element 9 (part_row classifier)) out.new result }
{
    put_element::<26, _, _>(9, classifier, put_parts, out, at)
}

// The children of a classifier, by rising type, 35 bytes at most.
fn put_classifier_row(classifier: Classifier, out: &mut [u8], at: usize) -> usize
    requires { at + 35 ≤ length out.old }
    ensures { Lined 35 out.old at (classifier_row classifier) out.new result }
{
    let a = put_number(2, 2, classifier.number as u64, out, at);
    let b = put_number(5, 1, classifier.priority as u64, out, a);
    put_part_row(classifier, out, b)
}

// Writes a classifier, 37 bytes at most.
#[tactic(auto, unfolding(writing_elements::specs::Encode::classifier_bytes))]
pub fn put_classifier(classifier: Classifier, out: &mut [u8], at: usize) -> usize
    ensures { record { next = result; out = out.new } ≡ put_within 37 (classifier_bytes classifier) out.old at }
{
    put_element::<35, _, _>(23, classifier, put_classifier_row, out, at)
}
