//! Serving as the words say, and the status that comes of it.
ghost use Rattle.std.specs.Prelude.{◌≡◌, ◌≤◌, ◌⊎◌, Err, IsTrue, IfSome, map, option_map, string_bytes};
ghost use Rattle.den_codec.specs.declared.error.Error.TheVariants.{OutOfMemory};
ghost use Rattle.den_disk.specs.Goes.{Rose, SinkGoesOn, SourceGoesOn};
ghost use Rattle.den_server.specs.Promises.{AllGoOn};
ghost use Rattle.den_serving.specs.Serving.{Ends, IsAnswer, IsAsked, IsServed};
ghost use Rattle.den_words.specs.Words.{names_in};

use crate::driving::serve_drive;
use crate::status::{Answer, status_of, tell};
use den_codec::Error;
use den_disk::{Clock, Disk, Link, Sink, Source};
use den_server::StandaloneEngine;
use den_words::{Names, names_of};
use std::alloc::Global;

// Serves a link from a disk, under the configuration of a source where a file is named, else under the default one.
fn serve_link<S: Source, D: Disk, L: Link, C: Clock>(
    alloc: Global,
    file: &Option<String>,
    conf: &mut S,
    disk: &mut D,
    link: &mut L,
    clock: &mut C,
) -> Result<(), Error>
    ensures served { IsServed S.Source D.Disk L.Link C.Clock conf.old conf.new disk.old disk.new link.old link.new clock.old clock.new
        (option_map string_bytes file.now) result }
    ensures goes_on { AllGoOn D.Disk L.Link C.Clock disk.old disk.new link.old link.new clock.old clock.new }
    ensures source { SourceGoesOn S.tells S.faults conf.old conf.new }
{
    match file {
        Some(_) => StandaloneEngine::run_with(alloc, conf, disk, link, clock),
        None => StandaloneEngine::run_default(alloc, disk, link, clock),
    }
}

// Does what the words ask for: a drive, or to serve.
fn serve_names<S: Source, D: Disk, L: Link, C: Clock>(
    alloc: Global,
    names: &Names,
    conf: &mut S,
    disk: &mut D,
    link: &mut L,
    clock: &mut C,
) -> Result<(), Error>
    requires few { IfSome names.now.drive (λ count. count ≤ 1000000) }
    ensures asked { IsAsked S.Source D.Disk L.Link C.Clock conf.old conf.new disk.old disk.new link.old link.new clock.old clock.new
        (option_map string_bytes names.now.config) names.now.drive result }
    ensures goes_on { AllGoOn D.Disk L.Link C.Clock disk.old disk.new link.old link.new clock.old clock.new }
    ensures source { SourceGoesOn S.tells S.faults conf.old conf.new }
{
    match names.drive {
        Some(count) => serve_drive(alloc, count, disk, link),
        None => serve_link(alloc, &names.config, conf, disk, link, clock),
    }
}

// Reads the words, and does what they ask for; none where they do not parse.
fn serve_words<S: Source, D: Disk, L: Link, C: Clock>(
    alloc: Global,
    words: &[String],
    conf: &mut S,
    disk: &mut D,
    link: &mut L,
    clock: &mut C,
) -> Answer
    ensures answer { IsAnswer S.Source D.Disk L.Link C.Clock conf.old conf.new disk.old disk.new link.old link.new clock.old clock.new
        (names_in (map string_bytes words.now)) result }
    ensures goes_on { AllGoOn D.Disk L.Link C.Clock disk.old disk.new link.old link.new clock.old clock.new }
    ensures source { SourceGoesOn S.tells S.faults conf.old conf.new }
{
    match names_of(alloc, words) {
        Ok(Some(names)) => Some(serve_names(alloc, &names, conf, disk, link, clock)),
        Ok(None) => None,
        Err(_) => Some(Err(Error::OutOfMemory)),
    }
}

/// Does what the words ask for, and answers the exit status; the line of the status is written to `errs`. Words that name
/// a folder are served from the disk through the link: under the configuration that the source's bytes give where they
/// name a file, else under the default one. Where they name a count, that many requests are driven in memory, and the line
/// of what came of them is sent through the link; source, disk and clock are not used. Which folder, file and port are
/// named is the caller's part, who lends them. Words that do not parse are answered 2, or 1
/// where memory is wanting to read them, with nothing touched.
pub fn serve_main<D: Disk, L: Link, C: Clock, S: Source, E: Sink>(
    alloc: Global,
    words: &[String],
    conf: &mut S,
    disk: &mut D,
    link: &mut L,
    clock: &mut C,
    errs: &mut E,
) -> u8
    // It ends with an answer and that answer's status and line. By what the words name the answer is that of a run, with
    // all that a run promises, that of a drive, or none where they do not parse.
    ensures ends { Ends (IsAnswer S.Source D.Disk L.Link C.Clock conf.old conf.new disk.old disk.new link.old link.new clock.old clock.new
        (names_in (map string_bytes words.now))) result (IsTrue (E.tells errs.old)) (Rose (E.faults errs.old) (E.faults errs.new)) (E.written errs.old) (E.written errs.new) }

    // Disk, link and clock go on as over any call; the files of the snapshot stay as they are, and a crash leaves them as it
    // could at entry.
    ensures goes_on { AllGoOn D.Disk L.Link C.Clock disk.old disk.new link.old link.new clock.old clock.new }

    // The counts of faults of the source and the sink do not fall, and the sink's lines only grow.
    ensures source { SourceGoesOn S.tells S.faults conf.old conf.new }
    ensures errs { SinkGoesOn E.tells E.written E.faults errs.old errs.new }
{
    let answer = serve_words(alloc, words, conf, disk, link, clock);
    tell(errs, answer);
    status_of(answer)
}
