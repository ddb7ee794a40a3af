// One envelope's plan: what a stage is by the settings, entering a stage, and what follows when a
// segment has ended.
ghost use Rattle.std.specs.Prelude.{◌≡◌};
ghost use Rattle.lane.specs.Planning as Planning;

use curve::{MAX_SEGMENT, Segment, UNTIMED};
use settings::{EnvelopeParams, Stage};
use timing::Timing;

// A stage by its settings: its count, the level it goes to, and its bend. Nothing else of the settings and
// the timing has a part in a stage that has begun: the start level and the restart are read where a note or
// an attack begins. So a plan keeps the three that it was made for, and `replan` leaves the stage as it is
// if they are the same.
#[derive(Clone, Copy, PartialEq)]
pub struct Spec {
    pub total: u64,
    pub to: f32,
    pub k: f64,
}

// A voice's settings, its present stage and the curve that it follows.
#[derive(Clone, Copy)]
pub struct Lane {
    pub params: EnvelopeParams,
    pub stage: Stage,
    // What the stage was entered or last replanned by.
    pub spec: Spec,
    // The curve. A replanned stage has one for its rest alone, since it has to go on from the level of
    // that moment and still end in time: spec.total - curve_total is then what was drawn of the stage
    // before.
    pub from: f32,
    pub to: f32,
    pub k: f64,
    pub curve_total: u64,
    // The sample of the curve, from 0, that the present segment began with.
    pub pos: u64,
    // How many samples that segment has in all.
    pub seg_len: u32,
}

// A plan, and the segment that it draws now.
#[derive(Clone, Copy)]
pub struct Voice {
    pub lane: Lane,
    pub seg: Segment,
}

// How a stage begins: the level at its curve's sample 0, and the sample that it begins with.
#[derive(Clone, Copy)]
pub struct Joined {
    pub from: f32,
    pub pos: u64,
}

// The stage that was found, and its plan.
#[derive(Clone, Copy)]
pub struct Entered {
    pub stage: Stage,
    pub spec: Spec,
    pub joined: Joined,
}

// What a stage is by the settings. `level` is where a delay stays; no other stage reads it.
pub(crate) fn spec_of(p: EnvelopeParams, stage: Stage, timing: Timing, level: f32) -> Spec
    ensures { result ≡ Planning.spec p stage timing level }
{
    let (total, to, k) = match stage {
        Stage::Idle => (0, numbers::unit(p.end), 0.0),
        Stage::Delay => (timing.samples(p.delay, p.unit), level, 0.0),
        Stage::Attack => (
            timing.samples(p.attack, p.unit),
            1.0,
            curve::bend(p.attack_curve),
        ),
        Stage::Hold => (timing.samples(p.hold, p.unit), 1.0, 0.0),
        Stage::Decay => (
            timing.samples(p.decay, p.unit),
            numbers::unit(p.sustain),
            curve::bend(p.decay_curve),
        ),
        Stage::Sustain => (0, numbers::unit(p.sustain), 0.0),
        Stage::Release => (
            timing.samples(p.release, p.unit),
            numbers::unit(p.end),
            curve::bend(p.release_curve),
        ),
    };
    Spec { total, to, k }
}

// An attack from above the start level leaves out the part of its curve that is below, and takes what is
// then left of its time. The curve is still the one from the start level, so that the level rises as in an
// attack from there. It is drawn at whole samples, so the place is rounded to one; under the limits it is at
// most the count, since x is at most 1. No sample has a level below the start level, and a start level of 1
// leaves nothing to rise: then the curve begins at the level itself and is drawn whole. From 1 on the
// attack is over.
fn join_attack(p: EnvelopeParams, level: f32, spec: Spec) -> Joined
    ensures { result ≡ Planning.join_attack p level spec }
{
    let start = numbers::unit(p.start);
    if start >= 1.0 || level < start {
        return Joined {
            from: level,
            pos: 0,
        };
    }
    if level >= 1.0 {
        return Joined {
            from: level,
            pos: spec.total,
        };
    }
    let x = curve::time_at(spec.k, numbers::widen((level - start) / (1.0 - start)));
    Joined {
        from: start,
        pos: numbers::round_to_u64(x * numbers::of_u64(spec.total)),
    }
}

// The same of any stage: only an attack can begin inside its curve.
pub(crate) fn join(p: EnvelopeParams, stage: Stage, level: f32, spec: Spec) -> Joined
    ensures { result ≡ Planning.join p stage level spec }
{
    match stage {
        Stage::Attack => join_attack(p, level, spec),
        _ => Joined {
            from: level,
            pos: 0,
        },
    }
}

// The first stage from `first` on that is untimed or has samples left from its place on, with its plan.
fn find(p: EnvelopeParams, timing: Timing, first: Stage, first_level: f32) -> Entered
    ensures { result ≡ Planning.find p timing first first_level }
{
    let mut stage = first;
    let mut level = first_level;
    // From stage to stage, as the Rust: nothing is counted, so no range is plainer.
    loop {
        let spec = spec_of(p, stage, timing, level);
        if stage.is_untimed() {
            break Entered {
                stage,
                spec,
                joined: Joined {
                    from: spec.to,
                    pos: 0,
                },
            };
        }
        let joined = join(p, stage, level, spec);
        if joined.pos < spec.total {
            break Entered {
                stage,
                spec,
                joined,
            };
        }
        level = spec.to;
        stage = stage.next();
    }
}

impl Lane {
    // A voice before its first note.
    pub fn new(params: EnvelopeParams) -> Voice
        ensures { result ≡ Planning.new params }
    {
        let end = numbers::unit(params.end);
        Voice {
            lane: Lane {
                params,
                stage: Stage::Idle,
                spec: Spec {
                    total: 0,
                    to: end,
                    k: 0.0,
                },
                from: end,
                to: end,
                k: 0.0,
                curve_total: 0,
                pos: 0,
                seg_len: 0,
            },
            seg: Segment::constant(end, UNTIMED),
        }
    }

    // The plan from `stage` on, which begins at `level`; stages that take no time are left out. In line, as
    // `start_segment` and `replanned`: else lane and voice are copied at each call, and a note takes a quarter longer.
    #[inline(always)]
    pub(crate) fn enter(self, timing: Timing, stage: Stage, level: f32) -> Voice
        ensures { result ≡ Planning.enter self timing stage level }
    {
        let found = find(self.params, timing, stage, level);
        let stage = found.stage;
        let spec = found.spec;
        if stage.is_untimed() {
            return self.begin_untimed(stage, spec);
        }
        self.begin(stage, spec, found.joined.from, spec.total, found.joined.pos)
    }

    // An untimed stage. Its level needs no curve, and the last one stays in the plan, unread.
    pub(crate) fn begin_untimed(self, stage: Stage, spec: Spec) -> Voice
        ensures { result ≡ Planning.begin_untimed self stage spec }
    {
        Voice {
            lane: Lane {
                stage,
                spec,
                from: spec.to,
                to: spec.to,
                ..self
            },
            seg: Segment::constant(spec.to, UNTIMED),
        }
    }

    // A timed stage, on a curve that takes it from `from` to its target in `total` samples, and of which
    // it leaves out the first `pos`.
    pub(crate) fn begin(self, stage: Stage, spec: Spec, from: f32, total: u64, pos: u64) -> Voice
        ensures { result ≡ Planning.begin self stage spec from total pos }
    {
        let lane = Lane {
            stage,
            spec,
            from,
            to: spec.to,
            k: spec.k,
            curve_total: total,
            pos,
            ..self
        };
        lane.start_segment()
    }

    // The curve's part from `pos` on. It begins at the curve's level there, not at the level that the
    // segment before it arrived at, so that no rounding is carried from one to the next.
    #[inline(always)]
    fn start_segment(self) -> Voice
        ensures { result ≡ Planning.start_segment self }
    {
        let rest = numbers::saturating_sub(self.curve_total, self.pos);
        let len = rest.min(MAX_SEGMENT as u64) as u32;
        // In place: by struct update planning takes more instructions.
        let mut lane = self;
        lane.seg_len = len;
        Voice {
            lane,
            seg: curve::segment(self.from, self.to, self.k, self.curve_total, self.pos, len),
        }
    }

    // What follows a segment: the curve's next part, or the next stage. A stage begins at the target of
    // the one before, whatever rounding made of the last level.
    pub fn advance(self, timing: Timing) -> Voice
        ensures { result ≡ Planning.advance timing self }
    {
        // In place: by struct update a frame takes twice as long.
        let mut lane = self;
        lane.pos = numbers::saturating_add(self.pos, self.seg_len as u64);
        if lane.pos < lane.curve_total {
            return lane.start_segment();
        }
        lane.enter(timing, lane.stage.next(), lane.to)
    }
}
