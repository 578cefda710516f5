//! A store whose volumes are reused, beside a plain model of what it keeps.
ghost use Rattle.std.specs.Prelude.{◌<◌};

use crate::leaves::{answered, decimal, put, row};
use crate::stops::{QUERY, RUN, call, last_moment, made, shows};
use ak_base::Bytes;
use ak_memhost::{MemHost, Tear};
use std::alloc::{AllocError, Global};
use std::process::Abort;
use std::test::Fail;

const CREATE: &str = "create d --volumes 2 --blocks 16 --slot 1 --pool 7 --every 1000 --scale 0";

const BLOCKS: u64 = 16;

const VOLUMES: u64 = 2;

const SERIES: usize = 7;

const NAMES: [&[u8]; 7] = [
    b"cpu host=a",
    b"cpu host=b",
    b"cpu host=c",
    b"cpu host=d",
    b"cpu host=e",
    b"cpu host=f",
    b"cpu host=g",
];

// A point that was accepted, and the ordinal that its leaf stands in where that is closed.
#[derive(Clone, Copy, Drop)]
struct Accepted {
    series: usize,
    time: u64,
    ordinal: Option<u64>,
}

// What a query is answered after a stop that leaves this view, and how many flushes may have been told by then.
#[derive(Drop)]
struct View {
    answer: Bytes,
    least: u64,
    most: u64,
}

// A store of two volumes by its rules, what the run in hand is given and told, and the views that it takes.
#[derive(Drop)]
struct Model {
    points: Vec<Accepted>,
    // how many leaves of each series were closed
    leaves: [u64; 7],
    newest: u64,
    fill: u64,
    steps: u64,
    stream: Bytes,
    told: Bytes,
    flushes: u64,
    views: Vec<View>,
}

// How many nodes are behind the leaf of this number: so many k from 1 to 10 have a power 32^k that divides the number and one.
fn carry(number: u64) -> u64 {
    u64::from(number.saturating_add(1).trailing_zeros() / 5).min(10)
}

impl Model {
    fn new(alloc: Global) -> Model {
        Model {
            points: Vec::new(alloc),
            leaves: [0; 7],
            newest: 0,
            fill: 0,
            steps: 0,
            stream: Bytes::new(alloc),
            told: Bytes::new(alloc),
            flushes: 0,
            views: Vec::new(alloc),
        }
    }

    // Whether a point is kept: its leaf is open, and such ones count, or it stands in a live ordinal.
    fn keeps(&self, point: &Accepted, with_open: bool) -> bool {
        match point.ordinal {
            Some(ordinal) => self.newest.saturating_sub(ordinal) < VOLUMES,
            None => with_open,
        }
    }

    // The answer to a query: by series, and by acceptance.
    fn answer(&self, alloc: Global, with_open: bool) -> Result<Bytes, AllocError> {
        let mut text = Bytes::new(alloc);
        for series in 0..SERIES {
            for point in &self.points {
                if point.series == series && self.keeps(point, with_open) {
                    let value = value_of(alloc, series, point.time)?;
                    row(
                        alloc,
                        &mut text,
                        NAMES[series],
                        point.time,
                        value.as_slice(),
                    )?;
                }
            }
        }
        answered(alloc, text.as_slice())
    }

    fn view(&mut self, alloc: Global, least: u64) -> Result<(), AllocError> {
        let view = View {
            answer: self.answer(alloc, false)?,
            least,
            most: self.flushes,
        };
        self.views.push(view)?;
        Ok(())
    }

    // A run begins.
    fn begin(&mut self, alloc: Global) -> Result<(), AllocError> {
        self.stream.clear();
        self.told.clear();
        self.flushes = 0;
        self.views.clear();
        self.view(alloc, 0)
    }

    fn put(&mut self, alloc: Global, series: usize) -> Result<(), AllocError>
        requires { series < 7 }
    {
        let time = self.points.len() as u64;
        let value = value_of(alloc, series, time)?;
        put(
            alloc,
            &mut self.stream,
            NAMES[series],
            time,
            value.as_slice(),
        )?;
        self.points.push(Accepted {
            series,
            time,
            ordinal: None,
        })?;
        Ok(())
    }

    fn query(&mut self, alloc: Global) -> Result<(), AllocError> {
        let answer = self.answer(alloc, true)?;
        self.stream.extend(alloc, QUERY)?;
        self.told.extend(alloc, answer.as_slice())
    }

    // A group of so many blocks is placed. Where it doesn't fit, an ordinal begins and a view is taken.
    fn place(&mut self, alloc: Global, blocks: u64) -> Result<(), AllocError> {
        if self.fill.saturating_add(blocks) > BLOCKS {
            self.newest = self.newest.saturating_add(1);
            self.fill = 0;
            self.view(alloc, self.flushes)?;
        }
        self.fill = self.fill.saturating_add(blocks);
        Ok(())
    }

    fn is_open(&self, series: usize) -> bool {
        for point in &self.points {
            if point.series == series && point.ordinal.is_none() {
                return true;
            }
        }
        false
    }

    // The open leaf of a series is closed.
    fn close(&mut self, alloc: Global, series: usize) -> Result<(), AllocError>
        requires { series < 7 }
    {
        let number = self.leaves[series];
        self.leaves[series] = number.saturating_add(1);
        self.place(alloc, carry(number).saturating_add(1))?;
        for point in self.points.iter_mut() {
            if point.series == series && point.ordinal.is_none() {
                point.ordinal = Some(self.newest);
            }
        }
        Ok(())
    }

    fn close_all(&mut self, alloc: Global) -> Result<(), AllocError> {
        for series in 0..SERIES {
            if self.is_open(series) {
                self.close(alloc, series)?;
            }
        }
        Ok(())
    }

    fn flush(&mut self, alloc: Global) -> Result<(), AllocError> {
        self.stream.extend(alloc, b"+!flush\r\n")?;
        self.told.extend(alloc, b"+OK\r\n")?;
        self.close_all(alloc)?;
        let before = self.flushes;
        self.flushes = before.saturating_add(1);
        self.view(alloc, before)
    }

    // Points come: in each step of the first series, in each second one of the second, and so on.
    fn give(&mut self, alloc: Global) -> Result<(), AllocError> {
        let step = self.steps;
        self.steps = step.saturating_add(1);
        for series in 0..SERIES {
            let every = series as u64 + 1;
            if step % every == 0 {
                for _ in 0..1 + (step / every) % 4 {
                    self.put(alloc, series)?;
                }
            }
        }
        Ok(())
    }

    // Points and flushes come until so many ordinals have begun.
    fn fill(&mut self, alloc: Global, ordinals: u64) -> Result<(), AllocError> {
        let before = self.newest;
        // each step closes a leaf
        for _ in 0..BLOCKS.saturating_mul(ordinals.saturating_add(1)) {
            if self.newest.saturating_sub(before) >= ordinals {
                return Ok(());
            }
            self.give(alloc)?;
            self.flush(alloc)?;
        }
        Ok(())
    }

    // The run ends: leaves are closed, and a view is taken.
    fn end(&mut self, alloc: Global) -> Result<(), AllocError> {
        self.close_all(alloc)?;
        self.view(alloc, self.flushes)
    }
}

// The value of a point.
fn value_of(alloc: Global, series: usize, time: u64) -> Result<Bytes, AllocError> {
    decimal(alloc, time.saturating_mul(3).saturating_add(series as u64))
}

// The run of a model is told what the model says.
fn run<R: Abort>(rt: &R, alloc: Global, host: &mut MemHost, model: &Model) -> Result<(), Fail> {
    let status = call(alloc, host, RUN, model.stream.as_slice())?;
    assert_eq!(rt; host.told(1), model.told.as_slice());
    assert_eq!(rt; host.told(0), b"".as_slice());
    assert_eq!(rt; status, 0);
    Ok(())
}

// A run in which an ordinal begins: what the store kept is told first, and what is open last.
fn reuse<R: Abort>(
    rt: &R,
    alloc: Global,
    host: &mut MemHost,
    model: &mut Model,
) -> Result<(), Fail> {
    model.begin(alloc)?;
    model.query(alloc)?;
    model.fill(alloc, 1)?;
    model.give(alloc)?;
    model.query(alloc)?;
    model.end(alloc)?;
    run(rt, alloc, host, model)
}

// 40 ordinals and more are used, so each volume is reused 19 times at least. Each series has more than 32 leaves, and the first
// more than 64.
#[test]
fn only_reused_volumes_lose_leaves(rt: HostRuntime) -> Result<(), Fail> {
    let alloc = rt.alloc();
    let mut host = made(&rt, alloc, CREATE)?;
    let mut model = Model::new(alloc);
    for _ in 0..40 {
        reuse(&rt, alloc, &mut host, &mut model)?;
    }
    assert!(rt; model.newest >= 40);
    assert!(rt; model.leaves[0] > 64 && model.leaves[6] > 32);
    let answer = model.answer(alloc, false)?;
    shows(
        &rt,
        alloc,
        &host,
        last_moment(&host),
        &[],
        answer.as_slice(),
    )
}

// Tears of all blocks. A block that is synced isn't torn.
fn tears(alloc: Global, first: u8) -> Result<Vec<Tear>, AllocError> {
    let mut block = [0xAA; 4096];
    block[0] = first;
    let mut tears = Vec::new(alloc);
    for file in 0..3 {
        for index in 0..16 {
            tears.push(Tear { file, index, block })?;
        }
    }
    Ok(tears)
}

// The place of the first view from one on that has this answer, where so many flushes are told.
fn find(views: &[View], from: usize, confirmed: u64, told: &[u8]) -> Option<usize> {
    for (place, view) in views.iter().enumerate() {
        let is_allowed = from <= place && view.least <= confirmed && confirmed <= view.most;
        if is_allowed && view.answer.as_slice() == told {
            return Some(place);
        }
    }
    None
}

// The place of the view, from one on, that a stop at a moment leaves.
fn left<R: Abort>(
    rt: &R,
    alloc: Global,
    host: &MemHost,
    views: &[View],
    from: usize,
    stop: (u64, &[Tear]),
) -> Result<usize, Fail> {
    let (moment, tears) = stop;
    let mut image = host.image(alloc, moment, tears)?;
    let status = call(alloc, &mut image, RUN, QUERY)?;
    assert_eq!(rt; status, 0, "at moment {moment}");
    // each confirmation is `+OK`, which takes 5 bytes
    let confirmed = host.told_at(1, moment) / 5;
    match find(views, from, confirmed, image.told(1)) {
        Some(place) => Ok(place),
        None => {
            assert!(rt; false, "at moment {moment}");
            Ok(from)
        }
    }
}

// A stop leaves the view before or the new one: without tears never one before what an earlier moment left, and with tears
// that one or its neighbour.
#[test]
fn a_stop_at_any_moment_of_two_switches_leaves_a_view(rt: HostRuntime) -> Result<(), Fail> {
    let alloc = rt.alloc();
    let mut host = made(&rt, alloc, CREATE)?;
    let mut model = Model::new(alloc);
    for _ in 0..3 {
        reuse(&rt, alloc, &mut host, &mut model)?;
    }
    model.begin(alloc)?;
    model.fill(alloc, 2)?;
    model.give(alloc)?;
    model.end(alloc)?;
    run(&rt, alloc, &mut host, &model)?;
    let views = model.views.as_slice();
    let shut = tears(alloc, 0xEE)?;
    let open = tears(alloc, 1)?;
    let mut last = 0;
    for moment in 0..host.moments() {
        last = left(&rt, alloc, &host, views, last, (moment, &[]))?;
        for torn in [&shut, &open] {
            let from = last.saturating_sub(1);
            let place = left(&rt, alloc, &host, views, from, (moment, torn.as_slice()))?;
            assert!(rt; place <= last.saturating_add(1), "at moment {moment}");
        }
    }
    assert_eq!(rt; last.saturating_add(1), views.len());
    Ok(())
}
