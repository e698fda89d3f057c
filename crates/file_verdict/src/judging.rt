//! The verdict on a table file that comes in pieces.
ghost use Rattle.std.specs.Prelude.{◌≡◌, ◌≢◌, [], List, ℕ, IfOk, IfErr};
ghost use Rattle.rv_model.specs.Image.{Img};
ghost use Rattle.gold.specs.declared.instances.Witness.{Witness};
ghost use Rattle.tab_file.specs.Reading.{TabFails, TabReads};
ghost use Rattle.tab_file.specs.Stands.{taken};
ghost use Rattle.tab_file.specs.declared.fault.TabKind.TheVariants.{NoMemory};
ghost use Rattle.verdict.specs.Judged.{IsJudged};
ghost use Rattle.file_verdict.specs.Standing.{IsGiven, IsReady, StandsForFile, the_shape};

use crate::adding::{begun, with_tables};
use gold::Form;
use host_io::Sink;
use rv_model::Image;
use std::alloc::{AllocError, Global};
use tab_file::laws::{front_laws, reads_or_fails};
use tab_file::{TabErr, TabKind, TabReader};
use verdict::{Judgement, VerdictRun, file_laws};
use zk_layout::machine_shape;

/// What is known of a table file of which a front has come. Neither its bytes nor its tables are kept.
#[derive(Drop)]
pub struct FileVerdict {
    alloc: Global,
    image: Image,
    reader: TabReader,
    /// What is known of the tables that are whole, where the file has told how many there are.
    run: Option<VerdictRun>,
}

impl FileVerdict {
    /// A verdict for the image on a file of which nothing has come.
    ///
    /// # Errors
    ///
    /// Memory ran out.
    pub fn new(alloc: Global, image: Image) -> Result<FileVerdict, AllocError>
        ensures stands { IfOk result (λ v. StandsForFile image [] v) }
        ensures ready { IfOk result IsReady }
        ensures taken { IfOk result (λ v. taken v.reader ≡ 0) }
    {
        let shape = machine_shape(alloc, Form::Two)?;
        let reader = TabReader::new(alloc, &shape)?;
        Ok(FileVerdict {
            alloc,
            image,
            reader,
            run: None,
        })
    }

    /// The judgement on the tables of the file, all of which has come.
    ///
    /// # Errors
    ///
    /// The first item in the order of the file that fails, or isn't whole; or `NoMemory` at offset 0.
    pub fn finish(self) -> Result<Judgement, TabErr>
        requires { IsReady self }
        // It is the judgement on the tables that the file reads as.
        ensures judged { IfOk result (λ j. (image : Img) (bytes : List ℕ) → StandsForFile image bytes self → (witness : Witness) × TabReads bytes the_shape witness × IsJudged image witness j) }
        // The file fails so.
        ensures fails { IfErr result (λ e. e.kind ≢ NoMemory → (image : Img) (bytes : List ℕ) → StandsForFile image bytes self → TabFails bytes the_shape e.kind e.at) }
    {
        front_laws();
        file_laws();
        let FileVerdict {
            alloc,
            reader,
            run,
            ..
        } = self;
        reader.end()?;
        match run {
            Some(run) => {
                let judgement = run.finish(alloc)?;
                Ok(judgement)
            }
            None => unreachable!(),
        }
    }
}

impl Sink for FileVerdict {
    ghost given = { λ start now bytes. IsGiven start now bytes };

    ghost ready = { λ v. IsReady v };

    ghost taken = { λ v. taken v.reader };

    /// Takes the next piece, and adds the tables that become whole with it. After a piece with an item that fails the
    /// bytes are dropped.
    fn take(&mut self, piece: &[u8]) -> Result<(), AllocError> {
        front_laws();
        reads_or_fails();
        let tables = match self.reader.feed(piece) {
            Ok(tables) => tables,
            Err(e) => match e.kind {
                TabKind::NoMemory => return Err(AllocError),
                _ => return Ok(()),
            },
        };
        let run = begun(self.alloc, &self.image, &self.reader, self.run.take())?;
        self.run = with_tables(self.alloc, &self.image, run, tables.as_slice())?;
        Ok(())
    }
}
