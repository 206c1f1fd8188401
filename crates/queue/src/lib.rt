// The places of a queue of 16 frames: which is in front, which is free, and how long each frame is.
#![tactic(auto)]

ghost use Rattle.std.specs.Prelude.{◌≡◌, ◌<◌, length, take};
ghost use Rattle.queue.specs.Queue.{empty, is_full, front, length_of, free, join, leave, first, stored, sent, keeps};

// The place in front, how many frames wait, and the length of the frame in each place. The places of 1,500 bytes lie
// apart, since a queue is copied: the words of an event tell what the queues were before it.
#[derive(Clone, Copy)]
pub struct Queue {
    pub first: usize,
    pub many: usize,
    pub lengths: [usize; 16],
}

impl Queue {
    // No frame waits.
    pub fn empty() -> Queue
        ensures { result ≡ empty }
    {
        Queue {
            first: 0,
            many: 0,
            lengths: [0; 16],
        }
    }

    // All 16 places are taken.
    pub fn is_full(self) -> bool
        ensures { result ≡ is_full self }
    {
        16 <= self.many
    }

    // The place in front.
    pub fn front(self) -> usize
        ensures { (result ≡ front self) × (result < 16) }
    {
        self.first % 16
    }

    // The length of the frame in front, 0 if none waits, as the definition `length_of` has it: no bytes are no frame.
    pub fn length(self) -> usize
        ensures { result ≡ length_of self }
    {
        if self.many == 0 {
            return 0;
        }
        self.lengths[self.front()]
    }

    // The place behind the last frame.
    pub fn free(self) -> usize
        ensures { (result ≡ free self) × (result < 16) }
    {
        (self.first % 16 + self.many % 16) % 16
    }

    // The frame in the free place joins; a full queue drops the newest frame and stays as it is.
    pub fn join(self, length: usize) -> Queue
        ensures { result ≡ join self length }
    {
        if self.is_full() {
            return self;
        }
        let mut lengths = self.lengths;
        lengths[self.free()] = length;
        Queue {
            many: self.many + 1,
            lengths,
            ..self
        }
    }

    // The frame in front leaves; an empty queue stays as it is.
    pub fn leave(self) -> Queue
        ensures { result ≡ leave self }
    {
        if self.many == 0 {
            return self;
        }
        Queue {
            first: (self.first % 16 + 1) % 16,
            many: self.many - 1,
            ..self
        }
    }

    // The frame in front; no bytes if none waits.
    pub fn frame(self, places: &[[u8; 1500]; 16]) -> &[u8]
        ensures { result.now ≡ first self places.now }
    {
        text::part(&places[self.front()][..], 0, self.length())
    }

    // A frame joins in the free place; a full queue drops it.
    pub fn add(self, frame: &[u8], places: &mut [[u8; 1500]; 16]) -> Queue
        ensures { (result ≡ join self (length frame.now))
            × (places.new ≡ stored self frame.now places.old) }
    {
        if !self.is_full() {
            buffer::put(frame, &mut places[self.free()], 0);
        }
        self.join(frame.len())
    }

    // The first bytes of a buffer, a frame that an end sent, join; no bytes are no frame.
    pub fn send(self, buffer: &[u8], length: usize, places: &mut [[u8; 1500]; 16]) -> Queue
        ensures { (result ≡ sent self (take length buffer.now))
            × (places.new ≡ keeps self (take length buffer.now) places.old) }
    {
        let frame = text::part(buffer, 0, length);
        if frame.is_empty() {
            return self;
        }
        self.add(frame, places)
    }
}
