// How costs, places and answers are printed.
use control::{Answer, Reply};
use costs::CostModel;
use std::fmt;

// A cost, as the name of its model and its columns.
#[derive(Drop)]
pub(crate) struct Columns<C: CostModel>(pub(crate) C::Cost);

impl<C: CostModel> fmt::Display for Columns<C> {
    fn fmt<W: fmt::Write>(&self, f: &mut fmt::Formatter<W>) -> fmt::Result {
        let name = C::NAME;
        write!(f, "{name}")?;
        // Stays: a cost model tells a column by its number, so that there are no items to go over. The page's loop of this kind writes into a
        // text, with another error.
        for i in 0..C::COLUMNS {
            let column = C::column(self.0, i);
            write!(f, " {column}")?;
        }
        Ok(())
    }
}

// Where a lock stands.
#[derive(Drop)]
pub(crate) struct Place(pub(crate) Option<u8>);

impl fmt::Display for Place {
    fn fmt<W: fmt::Write>(&self, f: &mut fmt::Formatter<W>) -> fmt::Result {
        match self.0 {
            Some(condition) => write!(f, "condition {condition}"),
            None => write!(f, "no condition"),
        }
    }
}

// An answer of a controller.
#[derive(Drop)]
pub(crate) struct Told<C: CostModel>(pub(crate) Answer<C::Cost>);

impl<C: CostModel> fmt::Display for Told<C> {
    fn fmt<W: fmt::Write>(&self, f: &mut fmt::Formatter<W>) -> fmt::Result {
        match self.0 {
            Ok(Reply::Quoted(cost)) => {
                let columns = Columns::<C>(cost);
                write!(f, "quoted {columns}")
            }
            Ok(Reply::Granted(cost)) => {
                let columns = Columns::<C>(cost);
                write!(f, "granted, {columns}")
            }
            Ok(Reply::Worked(operation)) => write!(f, "worked {operation}"),
            Ok(Reply::Closed(stage)) => write!(f, "closed, on to stage {stage}"),
            Err(refusal) => write!(f, "{refusal}"),
        }
    }
}
