// The chips of a script by their names, and what each command does to them.
use crate::answer::{Answer, Denial, Outcome, Reply};
use crate::cause::Cause;
use crate::held::{Held, Joins};
use crate::image;
use crate::script::{Call, Command, Kind, Source};
use chip::words::{BLANK, MOST};
use listing::judgement::judged;
use listing::records::{Listing, Reading};
use logs::writer::write;
use pair::pair::Unpaired;
use staging::fault::StageFault;
use staging::moment;
use staging::traced::Traced;
use std::alloc::Global;
use std::collections::BTreeMap;
use std::mem;
use wording::asked::Question;
use wording::draft::Draft;
use wording::told::{JudgementText, lines};

#[derive(Drop)]
pub struct Shelf<C: Joins> {
    heap: Global,
    chips: BTreeMap<String, Held<C>>,
}

impl<C: Joins> Shelf<C> {
    pub fn new(heap: Global) -> Shelf<C> {
        Shelf {
            heap,
            chips: BTreeMap::new(heap),
        }
    }

    // A command is an enum, since no function may make a closure for it and hand it out.
    pub fn run(&mut self, rt: &HostRuntime, command: Command) -> Result<Vec<Reply>, Cause> {
        let heap = self.heap;
        let call = format!(in heap; "{command}")?;
        let answer = match command {
            Command::Mount(kind, name, source) => self.mount(rt, kind, name, source)?,
            Command::Pair(name, first, second) => self.pair(name, first, second)?,
            Command::Make(made, name) => self.find_mut(name.as_str())?.make(made),
            Command::Read(name, place) => self.find(name.as_str())?.read(place),
            Command::Length(name) => Ok(Answer::Number(self.find(name.as_str())?.count())),
            Command::Capacity(name) => Ok(Answer::Number(self.find(name.as_str())?.capacity())),
            Command::Words(name) => Ok(Answer::Words(self.find(name.as_str())?.words(heap)?)),
            Command::Save(name, files) => Ok(self.save(rt, name.as_str(), files.as_slice())?),
            Command::CutAfter(stores, made, name) => Ok(self.cut_after(stores, made, name)?),
            Command::Record(draft) => record(heap, draft)?,
            Command::Work(question) => Ok(Answer::Text(work(heap, question)?)),
            Command::Cut => return self.cut(call),
            Command::Cuts(made, name) => return self.cuts(call, made, name.as_str()),
            Command::Records(name, reading) => return self.records(call, name.as_str(), reading),
        };
        Ok(vec![in heap; Reply { call, answer }]?)
    }

    fn check_free(&self, name: &str) -> Result<(), Cause> {
        if self.chips.contains_key(name) {
            return Err(Cause::TakenName(String::from_str(self.heap, name)?));
        }
        Ok(())
    }

    fn find(&self, name: &str) -> Result<&Held<C>, Cause> {
        self.chips
            .get(name)
            .try_ok_or_else(|| unknown(self.heap, name))
    }

    fn find_mut(&mut self, name: &str) -> Result<&mut Held<C>, Cause> {
        let heap = self.heap;
        self.chips
            .get_mut(name)
            .try_ok_or_else(|| unknown(heap, name))
    }

    fn take(&mut self, name: &str) -> Result<Held<C>, Cause> {
        self.chips
            .remove(name)
            .try_ok_or_else(|| unknown(self.heap, name))
    }

    // The answer is what the chip holds.
    fn put(&mut self, name: String, chip: Held<C>) -> Result<Answer, Cause> {
        let level = chip.level();
        self.chips.insert(name, chip)?;
        Ok(level)
    }

    fn mount(
        &mut self,
        rt: &HostRuntime,
        kind: Kind,
        name: String,
        source: Source,
    ) -> Result<Outcome, Cause> {
        self.check_free(name.as_str())?;
        let memory = Traced::new(self.heap, source_words(rt, kind, source)?);
        match Held::mounted(self.heap, kind, memory) {
            Ok(chip) => Ok(Ok(self.put(name, chip)?)),
            Err(StageFault::Refused(refusal)) => Ok(Err(Denial::Refused(refusal))),
            Err(fault) => Err(Cause::from(fault)),
        }
    }

    fn pair(&mut self, name: String, first: String, second: String) -> Result<Outcome, Cause> {
        if first == second {
            return Err(Cause::PairedWithItself(first));
        }
        if name != first && name != second {
            self.check_free(name.as_str())?;
        }
        let front = self.take(first.as_str())?;
        let back = self.take(second.as_str())?;
        match Held::paired(self.heap, front, back)? {
            Ok(chip) => Ok(Ok(self.put(name, chip)?)),
            Err(
                Unpaired {
                    first: front,
                    second: back,
                    refusal,
                },
            ) => {
                self.put(first, front)?;
                self.put(second, back)?;
                Ok(Err(Denial::Refused(refusal)))
            }
        }
    }

    fn save(&self, rt: &HostRuntime, name: &str, files: &[String]) -> Result<Answer, Cause> {
        let images = self.find(name)?.images(self.heap)?;
        if images.len() != files.len() {
            return Err(Cause::FileCount(files.len(), images.len()));
        }
        image::write_all(rt, files, images.as_slice())?;
        Ok(Answer::Files(files.len()))
    }

    fn cut(&mut self, call: String) -> Result<Vec<Reply>, Cause> {
        let heap = self.heap;
        let mut replies = Vec::new(heap);
        for (name, chip) in mem::try_take(&mut self.chips)? {
            let call = format!(in heap; "{call} {name}")?;
            let answer = Ok(self.put(name, chip.cut(heap)?)?);
            replies.push(Reply { call, answer })?;
        }
        if replies.is_empty() {
            replies.push(Reply {
                call,
                answer: Ok(Answer::NoChips),
            })?;
        }
        Ok(replies)
    }

    fn cut_after(&mut self, stores: u64, call: Call, name: String) -> Result<Answer, Cause> {
        let heap = self.heap;
        let chip = self.find_mut(name.as_str())?;
        let (_, noted) = Noted::of(heap, chip, call)?;
        let made = noted.stores();
        let stores = usize::try_from(stores).unwrap_or(usize::MAX);
        if stores > made {
            return Err(Cause::FewStores(made));
        }
        let chip = noted.found_after(heap, chip, stores)?;
        self.put(name, chip)
    }

    fn cuts(&mut self, label: String, call: Call, name: &str) -> Result<Vec<Reply>, Cause> {
        let heap = self.heap;
        let chip = self.find_mut(name)?;
        let (answer, noted) = Noted::of(heap, chip, call)?;
        let made = noted.stores();
        let mut replies = vec![in heap;
            Reply {
                call: label.clone()?,
                answer
            },
        ]?;
        for stores in 0..=made {
            let words = noted.found_after(heap, chip, stores)?.words(heap)?;
            replies.push(Reply {
                call: format!(in heap; "{label} after {stores} of {made}")?,
                answer: Ok(Answer::Words(words)),
            })?;
        }
        Ok(replies)
    }

    fn records(&self, call: String, name: &str, reading: Reading) -> Result<Vec<Reply>, Cause> {
        let heap = self.heap;
        let words = self.find(name)?.words(heap)?;
        let listing = Listing::of(heap, reading, words.as_slice())?;
        let mut replies = Vec::new(heap);
        for line in lines(heap, reading, &listing)? {
            replies.push(Reply {
                call: call.clone()?,
                answer: Ok(Answer::Text(line)),
            })?;
        }
        Ok(replies)
    }
}

// How many stores each memory of a chip had noted before a call and after it.
#[derive(Drop)]
struct Noted {
    before: Vec<usize>,
    after: Vec<usize>,
}

impl Noted {
    // Makes the call.
    fn of<C: Joins>(
        heap: Global,
        chip: &mut Held<C>,
        call: Call,
    ) -> Result<(Outcome, Noted), Cause> {
        let before = chip.stores(heap)?;
        let outcome = chip.make(call);
        let after = chip.stores(heap)?;
        Ok((outcome, Noted { before, after }))
    }

    // How many stores the call made.
    fn stores(&self) -> usize {
        moment::stores_between(self.before.as_slice(), self.after.as_slice())
    }

    // What a mount finds if the power goes after so many stores of the call.
    fn found_after<C: Joins>(
        &self,
        heap: Global,
        chip: &Held<C>,
        stores: usize,
    ) -> Result<Held<C>, Cause> {
        let (before, after) = (self.before.as_slice(), self.after.as_slice());
        let counts = moment::counts_at(heap, before, after, stores)?;
        Ok(chip.remounted(heap, counts.as_slice())?)
    }
}

fn unknown(heap: Global, name: &str) -> Result<Cause, Cause> {
    Ok(Cause::UnknownName(String::from_str(heap, name)?))
}

fn record(heap: Global, draft: Draft) -> Result<Outcome, Cause> {
    match write(draft.vector, draft.body.as_slice()) {
        Ok(words) => Ok(Ok(Answer::Words(words.as_slice().to_vec(heap)?))),
        Err(why) => Ok(Err(Denial::NotWritten(why))),
    }
}

fn work(heap: Global, question: Question) -> Result<String, Cause> {
    let judgement = judged(
        heap,
        question.kind,
        question.cells,
        question.body.as_slice(),
    )?;
    let judgement = JudgementText {
        judgement: &judgement,
    };
    Ok(format!(in heap; "{judgement}")?)
}

// The memory of a new chip: blank, but for the number of words that a count chip begins with.
fn unused(heap: Global, kind: Kind, size: u64) -> Result<Vec<u32>, Cause> {
    // A mount refuses every size above its limit alike, and this is one of them for both kinds of chip.
    let above = MOST + 2;
    let size = usize::try_from(size).unwrap_or(above).min(above);
    let mut words = vec![in heap; BLANK; size]?;
    if let (Kind::Count, Some(number)) = (kind, words.first_mut()) {
        *number = 0;
    }
    Ok(words)
}

fn source_words(rt: &HostRuntime, kind: Kind, source: Source) -> Result<Vec<u32>, Cause> {
    match source {
        Source::Words(size) => unused(rt.alloc(), kind, size),
        Source::Image(file) => image::read(rt, file.as_str()),
    }
}
