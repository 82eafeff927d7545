// A card: a few slots that hold the steps of a place, or the bands of a leg, so that what it shows at a minute is found by counting.
#![tactic(auto)]

ghost use Rattle.std.specs.Prelude.{◌≡◌, ◌+◌, ◌*◌, ◌≤◌, ◌<◌, length};
ghost use Rattle.bits.specs.Field.{field};
ghost use Rattle.card.specs.Card.{Blank, Written, Kept, Begun};
ghost use Rattle.card.specs.One.{Ready, ShownOn};

use leg::{Cents, Minute};

// A slot of a card: a minute, and the cents from that minute on.
#[derive(Clone, Copy)]
pub struct Slot {
    pub minute: Minute,
    pub price: Cents,
}

// One slot of a file from a bit on: a minute of 12 bits and cents of WIDTH bits, read together where one field holds both. That WIDTH is 1 to 32 is asked here and twice
// below: it is written as a number at each call.
fn slot_at<const WIDTH: usize>(file: &[u8], bit: usize) -> Slot
    requires { (1 ≤ WIDTH) × (WIDTH ≤ 32) × (bit + 12 + WIDTH ≤ 8 * length file.now) × (bit ≤ 9000000000) }
    ensures { (result.minute.0 ≡ field file.now bit 12) × (result.price.0 ≡ field file.now (bit + 12) WIDTH) }
{
    if WIDTH <= 20 {
        let both = reader::field(file, bit, 12 + WIDTH);
        Slot {
            minute: Minute(both >> WIDTH),
            price: Cents(both % (1 << WIDTH)),
        }
    } else {
        Slot {
            minute: Minute(reader::field(file, bit, 12)),
            price: Cents(reader::field(file, bit + 12, WIDTH)),
        }
    }
}

// Writes `count` pairs of a minute and cents of WIDTH bits into the first slots of a card: the steps of a sheet, or the bands of a network. By index: of a part lent to
// `iter_mut` each fact would have to be led back to all slots.
pub fn fill<const WIDTH: usize>(file: &[u8], bit: usize, count: usize, slots: &mut [Slot])
    requires { (1 ≤ WIDTH) × (WIDTH ≤ 32) × (count ≤ 16) × (bit ≤ 8589934592) × (bit + count * (12 + WIDTH) ≤ 8 * length file.now) × (count ≤ length slots.old) }
    ensures { Written file.now bit WIDTH count slots.new 0 × Kept slots.old slots.new 0 count }
{
    for k in 0..count {
        slots[k] = slot_at::<WIDTH>(file, bit + k * (12 + WIDTH));
    }
}

// A card that owns its N slots.
#[derive(Clone, Copy)]
pub struct OwnedCard<const N: usize> {
    pub slots: [Slot; N],
}

impl<const N: usize> OwnedCard<N> {
    // A card on which no slot is taken.
    pub fn blank() -> OwnedCard<N>
        ensures { Blank result.slots 0 N }
    {
        OwnedCard {
            slots: [Slot {
                minute: Minute(Minute::NEVER),
                price: Cents(0),
            }; N],
        }
    }

    // The same into its own slots.
    pub fn fill<const WIDTH: usize>(&mut self, file: &[u8], bit: usize, count: usize)
        requires { (1 ≤ WIDTH) × (WIDTH ≤ 32) × (count ≤ 16) × (bit ≤ 8589934592) × (bit + count * (12 + WIDTH) ≤ 8 * length file.now) × (count ≤ N) }
        ensures { Written file.now bit WIDTH count self.new.slots 0 × Kept self.old.slots self.new.slots 0 count }
    {
        fill::<WIDTH>(file, bit, count, &mut self.slots);
    }

    // The card, to be looked at.
    pub fn card(&self) -> Card<'_>
        ensures { (result.slots.now ≡ self.now.slots) × (length result.slots.now ≡ N) }
    {
        Card { slots: &self.slots }
    }
}

// The slots of one card: what each costs from its minute on. That a card can be looked at (`Ready`) is asked at each look and kept by no type: `fill` asks nothing of the
// bytes, and an `OwnedCard` lends a card whatever was read into it. That the minute comes is asked too: see `leg::Minute`.
#[derive(Clone, Copy)]
pub struct Card<'a> {
    pub slots: &'a [Slot],
}

impl<'a> Card<'a> {
    // How many slots have begun at a minute: each adds 1 or 0, and none ends the loop, so that several are counted at a time.
    pub fn begun(self, minute: Minute) -> usize
        requires { Ready self × (minute.0 < 4096) }
        ensures { Begun self.entry.slots.now 0 (length self.entry.slots.now) minute.0 result }
    {
        let mut count = 0;
        for slot in self.slots {
            count += u32::from(slot.minute <= minute);
        }
        count as usize
    }

    // What the card shows at a minute: the cents of the last slot that has begun, if one has.
    pub fn look(self, minute: Minute) -> Option<Cents>
        requires { Ready self × (minute.0 < 4096) }
        ensures { ShownOn self.entry minute.0 result }
    {
        let count = self.begun(minute);
        if count == 0 {
            return None;
        }
        Some(self.slots[count - 1].price)
    }
}
