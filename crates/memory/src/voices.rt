// A voice is put together from the arrays, and stored in them.
ghost use Rattle.std.specs.Prelude.{◌≡◌, ◌∷◌, [], ◌+◌, ◌*◌, ◌<◌, get_or, set};
ghost use Rattle.settings.specs.declared.stages.Stage.TheVariants.{Idle};
ghost use Rattle.numbers.specs.Constants as Constants;
ghost use Rattle.curve.specs.Segments as Segments;
ghost use Rattle.settings.specs.Settings.{amp};
ghost use Rattle.memory.specs.Memory as Memory;
ghost use Rattle.memory.specs.Spaced as Spaced;

use crate::arrays::{Arrays, Bends, Codes, Counts, Floats, MAX_VOICES};
use crate::codes::{
    flag_code, flag_of, restart_code, restart_of, stage_code, stage_named, unit_code, unit_of,
};
use curve::Segment;
use lane::{Lane, Spec, Voice};
use settings::{EnvelopeParams, Stage};

// The number of a voice for which there is room.
#[derive(Clone, Copy)]
struct Slot {
    v: usize,
    ghost room: { v < Memory.max_voices },
}

impl Arrays {
    fn load_params(&self, slot: Slot) -> EnvelopeParams
        ensures { result ≡ Memory.params_at self.now.floats self.now.codes slot.v }
    {
        let v = slot.v;
        let f = &self.floats;
        let c = &self.codes;
        EnvelopeParams {
            unit: unit_of(c[69 + 5 * v + 1]),
            delay: f[340 + 14 * v],
            attack: f[340 + 14 * v + 1],
            hold: f[340 + 14 * v + 2],
            decay: f[340 + 14 * v + 3],
            sustain: f[340 + 14 * v + 4],
            release: f[340 + 14 * v + 5],
            attack_curve: f[340 + 14 * v + 6],
            decay_curve: f[340 + 14 * v + 7],
            release_curve: f[340 + 14 * v + 8],
            start: f[340 + 14 * v + 9],
            end: f[340 + 14 * v + 10],
            legato_inverted: flag_of(c[69 + 5 * v + 2]),
            steal_restart: restart_of(c[69 + 5 * v + 3]),
        }
    }

    fn load_stage(&self, slot: Slot) -> Stage
        ensures { result ≡ Memory.stage_at self.now.codes slot.v }
    {
        let v = slot.v;
        stage_named(self.codes[69 + 5 * v + 4])
    }

    fn load_lane(&self, slot: Slot) -> Lane
        ensures { result ≡ Memory.lane_of (Memory.floats_at self.now.floats slot.v) (Memory.bends_at self.now.bends slot.v) (Memory.counts_at self.now.counts slot.v) (Memory.codes_at self.now.codes slot.v) (Memory.params_at self.now.floats self.now.codes slot.v) (Memory.stage_at self.now.codes slot.v) }
    {
        let v = slot.v;
        Lane {
            params: self.load_params(slot),
            stage: self.load_stage(slot),
            spec: Spec {
                total: self.counts[3 * v],
                to: self.floats[340 + 14 * v + 11],
                k: self.bends[3 + 2 * v],
            },
            from: self.floats[340 + 14 * v + 12],
            to: self.floats[340 + 14 * v + 13],
            k: self.bends[3 + 2 * v + 1],
            curve_total: self.counts[3 * v + 1],
            pos: self.counts[3 * v + 2],
            seg_len: self.codes[69 + 5 * v],
        }
    }

    fn load_segment(&self, slot: Slot) -> Segment
        ensures { result ≡ Memory.segment_at self.now.floats self.now.codes slot.v }
    {
        let v = slot.v;
        Segment {
            u: self.floats[v],
            r: self.floats[v + 68],
            d: self.floats[v + 136],
            scale: self.floats[v + 204],
            base: self.floats[v + 272],
            left: self.codes[v],
        }
    }

    // The voice v, or an idle one where there is no room for such a voice.
    pub fn load(&self, v: usize) -> Voice
        ensures { result ≡ Memory.loaded self.now v }
    {
        if v < MAX_VOICES {
            return Voice {
                lane: self.load_lane(Slot { v }),
                seg: self.load_segment(Slot { v }),
            };
        }
        Lane::new(EnvelopeParams::AMP)
    }

    // Each reading has its own value where there is no room: one over a closure would be no plainer.

    // Its settings alone.
    pub fn params(&self, v: usize) -> EnvelopeParams
        ensures { result ≡ Memory.if_room v (Memory.params_at self.now.floats self.now.codes v) amp }
    {
        if v < MAX_VOICES {
            return self.load_params(Slot { v });
        }
        EnvelopeParams::AMP
    }

    // Its stage alone.
    pub fn stage(&self, v: usize) -> Stage
        ensures { result ≡ Memory.if_room v (Memory.stage_at self.now.codes v) Idle }
    {
        if v < MAX_VOICES {
            return self.load_stage(Slot { v });
        }
        Stage::Idle
    }

    // Its segment alone.
    pub fn segment(&self, v: usize) -> Segment
        ensures { result ≡ Memory.if_room v (Memory.segment_at self.now.floats self.now.codes v) (Segments.constant Constants.zero 0) }
    {
        if v < MAX_VOICES {
            return self.load_segment(Slot { v });
        }
        Segment::constant(0.0, 0)
    }

    // The voice v becomes `voice`, if there is room for such a voice.
    pub fn store(&mut self, v: usize, voice: Voice)
        ensures { Memory.Stored v voice self.old self.new }
    {
        if v >= MAX_VOICES {
            return;
        }
        let slot = Slot { v };
        store_floats(&mut self.floats, slot, voice.lane);
        store_counts(&mut self.bends, &mut self.counts, slot, voice.lane);
        store_codes(&mut self.codes, slot, voice.lane);
        store_segment(&mut self.floats, &mut self.codes, slot, voice.seg);
    }
}

// Each is lent the arrays that it changes and no others, so that nothing has to be said of those.

fn store_segment(f: &mut Floats, c: &mut Codes, slot: Slot, s: Segment)
    ensures floats { f.new ≡ Spaced.puts 68 f.old slot.v (s.u ∷ s.r ∷ s.d ∷ s.scale ∷ s.base ∷ []) }
    ensures codes { c.new ≡ set c.old slot.v s.left }
{
    let v = slot.v;
    f[v] = s.u;
    f[v + 68] = s.r;
    f[v + 136] = s.d;
    f[v + 204] = s.scale;
    f[v + 272] = s.base;
    c[v] = s.left;
}

fn store_floats(f: &mut Floats, slot: Slot, lane: Lane)
    ensures { f.new ≡ Spaced.puts 1 f.old (340 + 14 * slot.v) (Memory.floats_of lane.params lane.spec lane.from lane.to) }
{
    let v = slot.v;
    let p = lane.params;
    f[340 + 14 * v] = p.delay;
    f[340 + 14 * v + 1] = p.attack;
    f[340 + 14 * v + 2] = p.hold;
    f[340 + 14 * v + 3] = p.decay;
    f[340 + 14 * v + 4] = p.sustain;
    f[340 + 14 * v + 5] = p.release;
    f[340 + 14 * v + 6] = p.attack_curve;
    f[340 + 14 * v + 7] = p.decay_curve;
    f[340 + 14 * v + 8] = p.release_curve;
    f[340 + 14 * v + 9] = p.start;
    f[340 + 14 * v + 10] = p.end;
    f[340 + 14 * v + 11] = lane.spec.to;
    f[340 + 14 * v + 12] = lane.from;
    f[340 + 14 * v + 13] = lane.to;
}

fn store_counts(k: &mut Bends, n: &mut Counts, slot: Slot, lane: Lane)
    ensures bends { k.new ≡ Spaced.puts 1 k.old (3 + 2 * slot.v) (lane.spec.k ∷ lane.k ∷ []) }
    ensures counts { n.new ≡ Spaced.puts 1 n.old (3 * slot.v) (lane.spec.total ∷ lane.curve_total ∷ lane.pos ∷ []) }
{
    let v = slot.v;
    k[3 + 2 * v] = lane.spec.k;
    k[3 + 2 * v + 1] = lane.k;
    n[3 * v] = lane.spec.total;
    n[3 * v + 1] = lane.curve_total;
    n[3 * v + 2] = lane.pos;
}

fn store_codes(c: &mut Codes, slot: Slot, lane: Lane)
    ensures { c.new ≡ Spaced.puts 1 c.old (69 + 5 * slot.v) (Memory.codes_of lane) }
{
    let v = slot.v;
    let p = lane.params;
    c[69 + 5 * v] = lane.seg_len;
    c[69 + 5 * v + 1] = unit_code(p.unit);
    c[69 + 5 * v + 2] = flag_code(p.legato_inverted);
    c[69 + 5 * v + 3] = restart_code(p.steal_restart);
    c[69 + 5 * v + 4] = stage_code(lane.stage);
}
