//! Small runs by two threads, over a queue of one.
use super::*;
use job_queue::JobQueue;
use rv_model::{Image, Segment, bytes_law};
use std::alloc::{AllocError, Global};
use std::sync::Arc;
use std::sync::atomic::{AtomicU64, Ordering};
use std::test::Fail;
use zk_layout::Air;

const START: u32 = 0x1_0078;

// ADDI x5, x5, 1
const ONE_MORE: u32 = 0x0012_8293;

// ADDI x17, x0, 93; ECALL
const HALT: [u32; 2] = [0x05D0_0893, 0x0000_0073];

// How often the gate was passed.
#[derive(Drop)]
struct Counting {
    published: AtomicU64,
    entered: AtomicU64,
}

impl Gate for Counting {
    fn published(&self, _chunk: u32) {
        self.published.fetch_add(1, Ordering::SeqCst);
    }

    fn enter(&self, _air: Air, _instance: u32) {
        self.entered.fetch_add(1, Ordering::SeqCst);
    }
}

// The image of n times the same instruction, and the halt.
fn image_of(alloc: Global, n: usize) -> Result<Option<Arc<Image>>, AllocError> {
    let mut bytes = Vec::new(alloc);
    for _ in 0..n {
        bytes.extend_from_slice(&ONE_MORE.to_le_bytes())?;
    }
    for word in &HALT {
        bytes.extend_from_slice(&word.to_le_bytes())?;
    }
    if bytes.len() < 4 || bytes.len() > 65536 {
        return Ok(None);
    }
    bytes_law(&bytes);
    let mut segments = Vec::new(alloc);
    segments.push(Segment {
        start: START,
        len: bytes.len() as u64,
        exec: true,
        bytes,
    })?;
    let input = Vec::new(alloc);
    let image = Image::new(alloc, u64::from(START), segments, input)?;
    Ok(Some(Arc::new(alloc, image)?))
}

/// 4,097 steps in five chunks, with two instances of Main and of Binary. The worker or the caller makes each of the four.
#[test]
fn two_threads(rt: HostRuntime) -> Result<(), Fail> {
    let alloc = rt.alloc();
    let image = image_of(alloc, 4095)?.ok_or("no image")?;
    let (queue, pass) = JobQueue::new(alloc, 1, 2, Arc::try_clone(&image)?)?;
    let gate = Counting {
        published: AtomicU64::new(0),
        entered: AtomicU64::new(0),
    };
    let (_pass, answer) = expand_all(&rt, alloc, &queue, pass, image, 5000, 1, &gate);
    let Ok(made) = answer else {
        return Err("the run doesn't halt".into());
    };
    assert_eq!(&rt; made.steps, 4097);
    assert_eq!(&rt; made.witness.tables.len(), 7);
    assert_eq!(&rt; gate.published.load(Ordering::SeqCst), 5);
    assert!(&rt; gate.entered.load(Ordering::SeqCst) <= 4);
    Ok(())
}
