// relocated_reads: reads addresses over a relocation table of many records, and prints a checksum of what was read.
//
// The words of the command line are RECORDS, the order in which the records are given, `sorted` or `shuffled`, and
// READS, how many addresses are read, from the first place of a section to the last, again and again.
#![tactic(auto)]

use readers::{AddressReader, Error, Reader, ReaderOffset, RunTimeEndian};
use relocate::{RelocateReader, Relocation, RelocationKind, RelocationTable};
use section_reader::EndianSlice;
use std::alloc::{AllocError, Global};
use std::{env, io};

const ADDRESS_SIZE: u8 = 8;

#[derive(Clone, Copy, PartialEq, Eq, Debug)]
enum Order {
    Sorted,
    Shuffled,
}

#[derive(Clone, Copy, PartialEq, Eq, Debug)]
struct Request {
    records: u32,
    order: Order,
    reads: u64,
}

impl Request {
    fn of(words: &[String]) -> Option<Request> {
        let [_, records, order, reads] = words else {
            return None;
        };
        Some(Request {
            records: records.parse::<u32>().ok()?,
            order: match order.as_str() {
                "sorted" => Order::Sorted,
                "shuffled" => Order::Shuffled,
                _ => return None,
            },
            reads: reads.parse::<u64>().ok()?,
        })
    }
}

// A record for each place of the section, in the order of the places.
fn records(heap: Global, count: u32) -> Result<Vec<Relocation>, AllocError> {
    let record = |place: u32| Relocation {
        offset: place as u64 * ADDRESS_SIZE as u64,
        kind: RelocationKind::Add,
        amount: place as u64 + 1,
    };
    (0..count).map(record).collect(heap)
}

// Puts the records into another order, always the same.
fn shuffle(records: &mut [Relocation]) {
    let mut state: u64 = 0x9e37_79b9_7f4a_7c15;
    for end in (1..records.len()).rev() {
        state ^= state << 13;
        state ^= state >> 7;
        state ^= state << 17;
        records.swap(end, (state % (end as u64 + 1)) as usize);
    }
}

fn checksum<R: AddressReader>(section: &R, reads: u64) -> Result<u64, Error> {
    let mut sum: u64 = 0;
    let mut input = section.clone();
    for _ in 0..reads {
        if input.len().into_u64() == 0 {
            input = section.clone();
        }
        sum = sum
            .wrapping_mul(31)
            .wrapping_add(input.read_address(ADDRESS_SIZE)?);
    }
    Ok(sum)
}

fn answer(heap: Global, request: &Request) -> Result<Result<u64, Error>, AllocError> {
    let bytes = vec![in heap; 0u8; request.records as usize * ADDRESS_SIZE as usize]?;
    let mut records = records(heap, request.records)?;
    if request.order == Order::Shuffled {
        shuffle(&mut records);
    }
    let table = RelocationTable::new(records)?;
    Ok(EndianSlice::new(&bytes, 0, RunTimeEndian::Little).and_then(|section| checksum(
        &RelocateReader::new(section, &table),
        request.reads,
    )))
}

fn main(rt: HostRuntime) -> io::Result<()> {
    let words: Vec<String> = env::args(&rt)?.collect(rt.alloc())?;
    match Request::of(&words) {
        Some(request) => match answer(rt.alloc(), &request)? {
            Ok(sum) => println!(rt; "{sum}"),
            Err(error) => println!(rt; "! {error}"),
        },
        None => println!(rt; "usage: relocated_reads RECORDS sorted|shuffled READS"),
    }
}
