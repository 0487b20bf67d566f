// What is known of files that the reader accepts.
ghost use Rattle.writer.specs.Accepted.{AcceptedDocumentIsWrittenBack, AcceptedListIsWrittenBack};

pub fn accepted_document_is_written_back()
    ensures { AcceptedDocumentIsWrittenBack }
{}

pub fn accepted_list_is_written_back()
    ensures { AcceptedListIsWrittenBack }
{}
