use sheet_value::Batch;

/// What is published: a batch, or the mark behind which nothing is published.
#[derive(Debug, Drop)]
pub enum Published {
    Full(Batch),
    End,
}
