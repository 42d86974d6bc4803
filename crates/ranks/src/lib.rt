// Ranks: the position of a slot among the marked ones, and the slot at a position. A mark is a bit, 32 to a word; sums of marks
// in blocks of 32, 1,024 and 32,768 slots keep each question to a few dozen words, all of them in a near cache. The slice is lent
// apart from where its words start and how many slots they are for: document 01, "separate lent slices".
#![tactic(auto)]

ghost use Rattle.std.specs.Prelude.{◌≡◌, cond, ◌+◌, ◌*◌, ◌-◌, ◌/◌, ◌≤◌, ◌<◌, ◌^◌, eqb, ltb, length};
ghost use Rattle.links.specs.Words.{word};
ghost use Rattle.ranks.specs.Ranks.{bit, below, size_for, marks, Ranks, Marked, Blank};

// Where a search stopped, and what is left of the sum that it looked for. The end is an answer too, the last block, so it is no
// Option.
#[derive(Clone, Copy)]
pub struct Spot {
    pub at: usize,
    pub left: u32,
}

// ------------------------------------------------------------ the bits of a word

// A word with one bit more.
fn with_bit(word: u32, i: usize) -> u32
    requires { (i < 32) × (bit word i ≡ 0) }
    ensures { result ≡ word + 2 ^ i }
{
    word + (1 << i)
}

// A word with one bit less.
fn without_bit(word: u32, i: usize) -> u32
    requires { (i < 32) × (bit word i ≡ 1) }
    ensures { result ≡ word - 2 ^ i }
{
    word - (1 << i)
}

// The sum of so many bits, from the lowest on.
fn ones(word: u32, count: usize) -> u32
    requires { count < 32 }
    ensures { result ≡ below (bit word) count }
{
    (word % (1 << count)).count_ones()
}

// The first of so many bits that is more than what is left of a sum; where there is none, their number.
fn pick(word: u32, count: usize, sum: u32) -> Spot
    requires { count ≤ 32 }
    ensures place { result.at ≤ count }
    ensures left { result.left + below (bit word) result.at ≡ sum }
    ensures found { result.at < count → result.left < bit word result.at }
{
    let mut left = sum;
    let mut rest = word;
    for i in 0..count {
        let bit = rest % 2;
        if left < bit {
            return Spot { at: i, left };
        }
        left -= bit;
        rest /= 2;
    }
    Spot { at: count, left }
}

// ------------------------------------------------------------ the words of a level

// The sum of the words from one index up to another.
fn sum(words: &[u32], at: usize, from: usize, to: usize) -> u32
    requires { (from ≤ to) × (at + to ≤ length words.now) × (below (word words.now at) to < 2 ^ 32) }
    ensures { result + below (word words.now at) from ≡ below (word words.now at) to }
{
    words[at + from..at + to].iter().sum()
}

// The first index, from one up to another, whose word is more than what is left of a sum; the other where there is none.
fn search(words: &[u32], at: usize, from: usize, to: usize, sum: u32) -> Spot
    requires { (from ≤ to) × (at + to ≤ length words.now) }
    ensures place { (from ≤ result.at) × (result.at ≤ to) }
    ensures left { result.left + below (word words.now at) result.at ≡ sum + below (word words.now at) from }
    ensures found { result.at < to → result.left < word words.now at result.at }
{
    let mut left = sum;
    for i in from..to {
        let here = words[at + i];
        if left < here {
            return Spot { at: i, left };
        }
        left -= here;
    }
    Spot { at: to, left }
}

// ------------------------------------------------------------ marks and ranks

// How many words the marks of so many slots and their sums take.
pub fn size_for(slots: usize) -> usize
    requires { slots ≤ 1048576 }
    ensures { result ≡ size_for slots }
{
    (slots / 32 + 1) + (slots / 32 + 1) + (slots / 1024 + 1) + (slots / 32768 + 1)
}

// How many slots a block of 32 has: the last has fewer.
fn slots_in(slots: usize, block: usize) -> usize
    requires { 32 * block ≤ slots }
    ensures { result ≡ cond (ltb (slots - 32 * block) 32) (slots - 32 * block) 32 }
{
    let past = slots - 32 * block;
    if past < 32 { past } else { 32 }
}

// Whether a slot is marked.
pub fn is_marked(words: &[u32], at: usize, slots: usize, slot: usize) -> bool
    requires { (slot < slots) × (at + slots / 32 < length words.now) }
    ensures { result ≡ eqb (marks words.now at slots slot) 1 }
{
    (words[at + slot / 32] >> (slot % 32)) % 2 == 1
}

// The number of marked slots below a slot: the slot's position, if it is marked.
pub fn position(words: &[u32], at: usize, slots: usize, slot: usize) -> u32
    requires ranks { Ranks words.now at slots }
    requires slot_le_slots { slot ≤ slots }
    ensures { result ≡ below (marks words.now at slots) slot }
{
    let by32 = at + (slots / 32 + 1);
    let by1024 = by32 + (slots / 32 + 1);
    let by32768 = by1024 + (slots / 1024 + 1);
    let far = sum(words, by32768, 0, slot / 32768);
    let near = sum(words, by1024, 32 * (slot / 32768), slot / 1024);
    let close = sum(words, by32, 32 * (slot / 1024), slot / 32);
    let here = ones(words[at + slot / 32], slot % 32);
    far + near + close + here
}

// The marked slot at a position.
pub fn slot_at(words: &[u32], at: usize, slots: usize, position: u32) -> usize
    requires ranks { Ranks words.now at slots }
    requires position_bound { position < below (marks words.now at slots) slots }
    ensures { (result < slots) × (marks words.now at slots result ≡ 1) × (below (marks words.now at slots) result ≡ position) }
{
    let by32 = at + (slots / 32 + 1);
    let by1024 = by32 + (slots / 32 + 1);
    let by32768 = by1024 + (slots / 1024 + 1);
    let far = search(words, by32768, 0, slots / 32768, position);
    let near = search(words, by1024, 32 * far.at, slots / 1024, far.left);
    let close = search(words, by32, 32 * near.at, slots / 32, near.left);
    let here = pick(words[at + close.at], slots_in(slots, close.at), close.left);
    32 * close.at + here.at
}

// Marks a slot that is not marked.
pub fn put_in(words: &mut [u32], at: usize, slots: usize, slot: usize)
    requires ranks { Ranks words.old at slots }
    requires slot_lt_slots { (slot < slots) × (marks words.old at slots slot ≡ 0) }
    ensures { Marked at slots slot 1 words.old words.new }
{
    let by32 = at + (slots / 32 + 1);
    let by1024 = by32 + (slots / 32 + 1);
    let by32768 = by1024 + (slots / 1024 + 1);
    words[at + slot / 32] = with_bit(words[at + slot / 32], slot % 32);
    words[by32 + slot / 32] += 1;
    words[by1024 + slot / 1024] += 1;
    words[by32768 + slot / 32768] += 1;
}

// Takes the mark from a marked slot: `put_in` turned round. One function of a sign would ask for it at each of the four sums.
pub fn take_out(words: &mut [u32], at: usize, slots: usize, slot: usize)
    requires ranks { Ranks words.old at slots }
    requires slot_lt_slots { (slot < slots) × (marks words.old at slots slot ≡ 1) }
    ensures { Marked at slots slot 0 words.old words.new }
{
    let by32 = at + (slots / 32 + 1);
    let by1024 = by32 + (slots / 32 + 1);
    let by32768 = by1024 + (slots / 1024 + 1);
    words[at + slot / 32] = without_bit(words[at + slot / 32], slot % 32);
    words[by32 + slot / 32] -= 1;
    words[by1024 + slot / 1024] -= 1;
    words[by32768 + slot / 32768] -= 1;
}

// Starts with no slot marked.
pub fn start(words: &mut [u32], at: usize, slots: usize)
    requires { (at + size_for slots ≤ length words.old) × (slots ≤ 1048576) }
    ensures { Blank at slots words.old words.new }
{
    links::clear(words, at, size_for(slots));
}
