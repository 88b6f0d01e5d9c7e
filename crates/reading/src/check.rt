// Whether values are those of a voice's slots.
ghost use Rattle.std.specs.Prelude.{◌≡◌, ◌+◌, ◌≤◌, length};
ghost use Rattle.refusing.specs.Refusal.{every};
ghost use Rattle.slots.specs.Slots.{configuration_in};
ghost use Rattle.slots.specs.Sound.{one_form, forms_kept, sound};

use configuration::Configuration;
use number::bits::{bits_of, float_of};
use slots::count_of;
use slots::places::{FIRST_AT, LEFT_AT, METER_AT, is_set, noise_at, queue_at, used_at};
use voice::usable;

// The configuration in the first twelve slots.
pub fn configuration_in(slots: &[u64]) -> Configuration
    requires { 12 ≤ length slots.now }
    ensures { result ≡ configuration_in slots.now }
{
    Configuration {
        nmcp: slots[0] as usize,
        nlpf: slots[1] as usize,
        stage: slots[2],
        log: is_set(slots[3]),
        rate: slots[4],
        alpha: float_of(slots[5]),
        beta: float_of(slots[6]),
        volume: float_of(slots[7]),
        fperiod: slots[8] as usize,
        nodata: float_of(slots[9]),
        low: float_of(slots[10]),
        high: float_of(slots[11]),
    }
}

// Whether these bits are not another form of the NaN: read and written again they stay.
fn one_form(bits: u64) -> bool
    ensures { result ≡ one_form bits }
{
    bits_of(float_of(bits)) == bits
}

// Whether all of them have the one form.
fn forms_kept(values: &[u64]) -> bool
    ensures { result ≡ every one_form values.now }
{
    values.iter().all(|bits| one_form(*bits))
}

// Whether all floats have it.
fn all_forms_kept(slots: &[u64], nlpf: usize) -> bool
    requires { (nlpf ≤ 64) × (19 + nlpf + nlpf + 2 ≤ length slots.now) }
    ensures { result ≡ forms_kept nlpf slots.now }
{
    let noise = noise_at(nlpf);
    let queue = queue_at(nlpf);
    forms_kept(&slots[5..8])
        & forms_kept(&slots[9..12])
        & forms_kept(&slots[15..noise])
        & forms_kept(&slots[queue..])
}

// Count, form of the NaNs, flags, and the rules that an idle voice breaks.
pub fn is_sound(slots: &[u64]) -> bool
    requires { 12 ≤ length slots.now }
    ensures { result ≡ sound slots.now }
{
    let c = configuration_in(slots);
    if !configuration::kept(c) {
        return false;
    }
    if count_of(c) != slots.len() {
        return false;
    }
    let flags = (slots[3] <= 1) & (slots[FIRST_AT] <= 1);
    let used = slots[used_at(c.nlpf)];
    usable(
        c,
        slots[METER_AT],
        slots[LEFT_AT] as usize,
        is_set(slots[FIRST_AT]),
        used as usize,
    ) & flags
        & all_forms_kept(slots, c.nlpf)
}
